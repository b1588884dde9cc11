//! Reads and writes of cells as terms and sets of automata: elements at indexes that move, bits and bytes.
//!
//! The definitions stand in `specs/`; the functions of `laws` are laws of them.
#![tactic(auto)]

mod access;
mod areas;
mod check;
mod elements;
pub mod laws;
mod numbers;
mod reading;
mod setting;
mod writing;

pub use access::{Move, Storage, Writing};
pub use check::Check;
pub use reading::{push_read, push_unset};
pub use writing::push_write;
