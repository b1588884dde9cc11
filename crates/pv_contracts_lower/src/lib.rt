//! Contract tests of expressions and operands as terms, `pv_lower`.
//!
//! Each public call whose clauses are no equation of what it answers stands here once more, with the library's clauses, by the call itself.
//! An edit of `must-fail` gives a wrong answer in its place.
#![tactic(auto)]

pub mod terms;
