//! Patterns from their texts: each expression read, asked whether something is at fault with it, and its names found.
//!
//! What texts say, and which is at fault first, is defined by pv_pattern (`specs/Texts`). The expressions are asked one by one, the
//! first one whole before the next.
#![tactic(auto)]

mod asking;
mod brief;
mod fault;
mod kind;
pub mod laws;
mod making;
mod named;
mod operands;
mod reading;
mod spot;
mod term;
mod text;

pub use asking::said;
pub use fault::{PatternFault, TextFault};
pub use kind::count;
pub use named::named_in;
pub use pv_case::PatternKind;
pub use reading::read;
