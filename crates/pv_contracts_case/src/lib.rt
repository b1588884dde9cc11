//! Contract tests of pv_case, pv_case_fit and pv_pattern_read: each call once more, with the clauses of its library.
#![tactic(auto)]

pub mod cases;
pub mod fitting;
pub mod patterns;
