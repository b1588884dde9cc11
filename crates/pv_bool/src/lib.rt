//! Boolean programs: bits by number, and assignments of terms over them, with the requirement that
//! is to hold at the end.
//!
//! They stand between the trees of sources and what decides on circuits, formulas and certificates:
//! that half of the program knows nothing of a source but its Boolean program.
#![tactic(auto)]

pub mod laws;
mod program;

pub use program::{Assignment, Bit, BitRole, Program, Term};
