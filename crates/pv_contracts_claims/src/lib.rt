//! Contract tests of pv_claims: each call once more, with the clauses of its library.
#![tactic(auto)]

pub mod parts;
pub mod texts;
