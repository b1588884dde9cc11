//! Calls become copies: the automaton of an entry and of the blocks that it calls as one without call edges.
//!
//! What it is, is defined in `pv_call_copies`. Edges are counted before anything is copied; then each call path has a copy of its block's
//! terms, deeds and edges (`copying`), location by location (`walking`).
#![tactic(auto)]

mod blocks;
mod called;
mod copying;
mod fault;
mod inlining;
mod making;
mod size;
mod table;
mod variables;
mod walking;

pub use fault::{MAX_EDGES, TooLarge};
pub use inlining::{copy_calls, inline};
pub use size::inlined_size;
pub use variables::inlined_variables;
