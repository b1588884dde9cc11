//! Circuits of shared gates: And, Xor and Mux nodes over inputs, numbered in the order in which they
//! are made. Constants and complements fold, and a node that is there is used again.
//!
//! A literal is an `i32`: `n` is node number `n`, and `-n` its complement. Node 1 is constant true.
#![tactic(auto)]

mod fault;
mod folding;
mod literal;
mod literals;
mod netlist;
mod operations;
mod sharing;

pub use fault::GateFault;
pub use literals::Literals;
pub use netlist::{FALSE, MAX_GATES, MAX_INPUTS, Node, TRUE};
pub use sharing::{Gates, make};
