//! Contract tests of the terms of automata and of their variables, `pv_terms` and `pv_variables`.
//!
//! Each public call whose clauses are no equation of what it answers stands here once more, with the library's clauses, by the call itself.
//! An edit of `must-fail` gives a wrong answer in its place.
#![tactic(auto)]

pub mod forms;
pub mod nodes;
pub mod places;
