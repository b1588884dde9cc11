//! Contract tests of pv_log and pv_solver: each call once more, with the clauses of its library.
#![tactic(auto)]

pub mod checks;
pub mod lines;
pub mod solver;
