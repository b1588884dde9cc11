//! Laws of expressions and operands as terms.
//!
//! The definitions stand in `specs/`; each law is the contract of a function that does nothing.
#![tactic(auto)]

pub mod laws;
