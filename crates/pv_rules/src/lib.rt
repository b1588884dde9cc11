//! The rules of the language over whole projects: a project of blocks and symbols, or the first breach.
#![tactic(auto)]

mod checked;
mod code;
mod found;
mod laws;
mod outputs;
mod plain;
mod project_rules;
mod reads;
mod statements;
mod values;

pub use checked::check;
pub use laws::scl_blocks_have_no_instructions;
pub use plain::has_no_instructions;
