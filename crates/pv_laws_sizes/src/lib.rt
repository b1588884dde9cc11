//! Laws of sizes that stand on the rules: which blocks the limit on edges asks about, by number, and what calls copy.
//!
//! The definitions stand in `specs/`; each law is the contract of a function that does nothing.
#![tactic(auto)]

pub mod laws;
