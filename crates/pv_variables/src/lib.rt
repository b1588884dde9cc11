//! The variables of a block's automaton: in which order they stand, and where a name's cell lies among them.
//!
//! The definitions stand in `specs/`; the functions of `laws` are laws of them.
#![tactic(auto)]

mod begun;
mod count;
pub mod laws;
mod list;
mod numbers;
mod types;

pub use begun::{Elements, element_placed, elements_placed, field_placed, placed};
pub use list::variables_of;
pub use numbers::{Numbers, numbers_of};
pub use types::named_types;
