//! Flows, laid out: what a tree of statements' locations does, and that its automaton does the same.
//!
//! The definitions stand in `specs/`; each law is the contract of a function that does nothing.
#![tactic(auto)]

pub mod laws;
