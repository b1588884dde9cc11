//! Expressions and operands as terms: a term in a table, and the checks that stand before it.
//!
//! The definitions stand in `specs/`.
#![tactic(auto)]

mod access;
mod fault;
mod lowering;
mod operators;
mod storage;
mod types;

pub use access::Access;
pub use fault::LowerFault;
pub use lowering::Lowering;
