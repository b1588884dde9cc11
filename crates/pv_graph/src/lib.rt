//! Graphs over numbered nodes: which nodes lead to which, and where chains of so many steps end.
//!
//! Nothing recurses on a chain's length: a search keeps a list of the nodes still to be left, and chains are counted in rounds.
#![tactic(auto)]

mod chains;
mod cycles;
mod graph;
mod numbers;
mod search;
mod targets;

pub use chains::chain_ends;
pub use cycles::flag_at;
pub use graph::Graph;
pub use targets::Targets;
