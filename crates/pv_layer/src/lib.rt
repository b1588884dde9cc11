//! Layouts of spots, made spot by spot as the parts of an automaton.
//!
//! What each push adds to each list stands in `specs/Making.antt`, what a layer stands for in `specs/Standing.antt`.
#![tactic(auto)]

mod checks;
mod layer;
mod tables;
mod types;
mod ways;

pub use layer::Layer;
pub use types::{Check, Way};
