//! Terms of automata for the operators and functions of expressions, and their nodes in a table.
//!
//! The definitions stand in `specs/`; the functions of `laws` are laws of them.
#![tactic(auto)]

mod fault;
mod forms;
mod function;
pub mod laws;
mod table;

pub use fault::TermFault;
pub use forms::{converted, push_between, push_is_index, push_less, push_operator, push_outside};
pub use function::{Given, push_function};
pub use table::{push_binary, push_constant, push_not, push_select, push_unary, push_variable};
