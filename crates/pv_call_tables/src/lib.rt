//! Tables of a block whose calls become copies: what each location ends, which call edge begins there, which edges and loops do, how much
//! stands before it; and edges that are drawn before ends have numbers.
//!
//! What copies of called blocks are is defined in `pv_call_copies`.
#![tactic(auto)]

mod chains;
mod drawn;
mod fault;
pub mod laws;
mod marks;
mod numbers;
mod ranking;
mod widths;

pub use chains::{Chains, edge_chains, loop_chains};
pub use drawn::{Aim, Drawn, behind, edges_of, overs_of, traps_of};
pub use fault::Wanting;
pub use marks::{Standing, call_at, calls_at, standing_at, standings};
pub use numbers::{add, number_at, number_of};
pub use ranking::{counts, ranks};
pub use widths::{Called, Outline, drawn_before, of_call, starts, text_size};
