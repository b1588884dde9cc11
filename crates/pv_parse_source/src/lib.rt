//! Sources and expressions, read from tokens by the grammar of a language: declarations, blocks, and the loop that builds a tree.
#![tactic(auto)]

mod blocks;
mod builder;
mod decl_texts;
mod declarations;
mod parse;
mod pops;
mod reading;
mod sources;

pub use builder::build;
pub use parse::parse_source;
pub use reading::read_expression;
pub use sources::read_source;
