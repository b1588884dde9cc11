//! How many checks, edges and call edges a block has as an automaton, by its tree alone, before anything is built.
//!
//! Brief cells and called blocks are found by name, so sizes stand on a block's scope. Nothing takes memory, and counting stops behind
//! the greatest number of edges that a block may have.
#![tactic(auto)]

mod brief;
mod calls;
mod checks;
mod count;
mod instructions;
mod laws;
mod statements;

pub use checks::expr_size;
pub use count::{BEYOND, MAX_EDGES};
pub use laws::{
    called_blocks_are_asked, counting_keeps_the_limit, lists_are_sums, sizes_are_at_least_one,
};
pub use statements::{block_size, stmt_size};
