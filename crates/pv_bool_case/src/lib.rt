//! Cases of the first form: the questions that stand between the stages of a command, and the Boolean program of a block with the pattern
//! that a case's texts are. What the questions mean stands in `specs/`.
#![tactic(auto)]

mod form;
pub mod laws;
mod program;
mod text;

pub use form::{is_first_case, is_first_project, only_block, source_file};
pub use program::program_by;
pub use text::said_at;
