//! The calls of a project by number, and the rules of the language on chains of calls: the least place at which one is broken.
//!
//! A call runs the first block of its name, so blocks are told apart by their numbers and calls are a graph over these (`pv_graph`). Nothing
//! here recurses on a chain of calls.
#![tactic(auto)]

mod by_number;
mod gathered;
mod links;
mod rules;

pub use links::{Link, Links};
pub use rules::{call_cycle, call_too_deep, calls_by_number};
