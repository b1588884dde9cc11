//! Statements and calls at work: the body of a block, run in a frame.
//!
//! The bodies of the blocks that calls lead to are one flat program: statements in an array, in which those of a list stand one
//! behind the other, and the lists inside a statement before it. So a run goes to smaller numbers within a body, and to fewer calls
//! at a call. A cell that a block works with stands in one of three stretches: the visible cells, the block's own brief cells, and
//! those of the blocks that it calls.
#![tactic(auto)]

mod callee;
mod choose;
mod counting;
mod pass;
mod program;
mod run;
mod stop;
mod values;

pub use program::{
    Arm, At, Body, Branch, Called, Choice, Code, Counting, First, Inward, List, Outward, Program,
    Slot, Span, Stmt,
};
pub use run::MOST_CALLS;
pub use stop::{Flow, Stop};
