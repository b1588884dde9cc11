//! The oracle of a case: queries on the machine of a source and its pattern, by circuits that do its steps, and traces of the source
//! that values of their formulas stand for.
#![tactic(auto)]

mod facts;
mod judged;
pub mod laws;
mod lift;
mod once;
mod trace;

pub use lift::{Lift, Reduce, make};
