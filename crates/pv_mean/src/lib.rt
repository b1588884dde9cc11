//! What a project means: cells, frames, values, statements, calls, scans and runs.
//!
//! The definitions stand in `specs/`, one module a subject, over plain trees alone.
#![tactic(auto)]

mod cell;
mod count;
mod data_blocks;
pub mod instruction_laws;
mod known;
mod laid;
pub mod laws;
mod lookup;
mod names;
mod sizes;
mod sizing;
pub mod step_laws;
mod types;
mod view;

pub use cell::Cell;
pub use count::BEYOND;
pub use laid::{Laid, Part, activation_part};
pub use lookup::find;
pub use sizes::Sizes;
pub use view::{CaseView, set_params};
