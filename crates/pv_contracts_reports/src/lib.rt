//! Contract tests of pv_stretch and pv_report: each call once more, with the clauses of its library.
#![tactic(auto)]

pub mod lines;
pub mod stretch;
