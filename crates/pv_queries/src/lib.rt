//! The queries on a source of step circuits: its machine, its circuit, built once, the formulas of queries, and the runs that values
//! of their variables stand for, as numbers.
#![tactic(auto)]

mod built;
pub mod laws;
mod machine;
mod numbers;

pub use built::{Built, MAX_BUILT_BITS, MAX_BUILT_GATES};
pub use machine::CircuitMachine;
pub use numbers::{NumberRun, values_of};
