//! Copies of called blocks: why a run with calls and a run of the automaton with copies are alike.
//!
//! The definitions stand in `specs/`; each law is the contract of a function that does nothing.
#![tactic(auto)]

pub mod laws;
