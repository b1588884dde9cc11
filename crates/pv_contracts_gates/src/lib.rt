//! Contract tests of pv_cnf, pv_gate, pv_bits, pv_frames and pv_step: each call once more, with the clauses of its library.
#![tactic(auto)]

pub mod cnf;
pub mod frames;
pub mod gate;
pub mod step;
pub mod words;
