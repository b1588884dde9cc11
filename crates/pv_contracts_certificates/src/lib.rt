//! Contract tests of pv_cert, pv_trace, pv_recheck and pv_judge: each call once more, with the clauses of its library.
#![tactic(auto)]

pub mod certificates;
pub mod checks;
pub mod judging;
pub mod traces;
