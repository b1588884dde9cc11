//! Loops become copies: an automaton with loops becomes one whose edges lead forward.
//!
//! A first pass in the order of the text, once through each loop, says what a turn takes and where first copies stand. Then the
//! text is laid from its beginning to its end: where a copy stands is where the first of its kind does, and what the turns before
//! it take. Nothing recurses, and laying takes no memory but what it lays and two numbers for each loop around.
#![tactic(auto)]

mod chains;
mod counting;
mod endings;
mod fault;
pub mod laws;
mod lay;
mod lead;
mod numbers;
mod sizing;
mod turning;
mod unrolling;
mod walk;

pub use counting::unrolled_size;
pub use fault::{MAX_COPIES, MAX_EDGES, TooLarge};
pub use unrolling::{copy_loops, unroll};
