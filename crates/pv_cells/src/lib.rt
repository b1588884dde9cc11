//! The cell table of a project: what a block's variables, data blocks, bytes of areas and calls come down to.
//!
//! `pv_mean` defines the table; here it is made. Its cells are counted first, block by block, so that no more is built than a table
//! may have.
#![tactic(auto)]

mod areas;
mod calls;
mod copies;
mod data;
mod fault;
mod graph;
mod made;
mod named;
mod node;
mod nodes;
mod own;
mod plan;
mod project_table;
mod table;
mod types;
mod variables;

pub use fault::CellFault;
pub use project_table::Table;
pub use table::cells;
