//! The step circuit of a Boolean program: the gates of one scan, with the literals of its beginning,
//! its end and its outcome.
//!
//! A circuit only grows, and by gates alone. So a literal that is made keeps its name and its value,
//! what a part of the scan needs the whole needs too, and the nodes are constant true, the inputs and
//! the gates. Three inductions over terms stand apart: what is made grows (without a condition), it
//! names nodes (where the term names its program's bits), and it has the term's value.
#![tactic(auto)]

mod build;
pub mod laws;
mod state;
mod step;

pub use pv_circuit::StepCircuit;
pub use state::starts;
pub use step::circuit;
