//! Blocks of the first form as Boolean programs, by the meaning of the whole language.
//!
//! The definitions stand in `specs/`. A scan of such a block is its program's (`laws`), so what decides
//! on Boolean programs decides on the block.
#![tactic(auto)]

mod first;
mod form;
pub mod laws;
mod requirement;
mod words;

pub use first::{first_form, first_pattern};
pub use form::{is_first_block, is_first_requirement};
pub use requirement::Requirement;
