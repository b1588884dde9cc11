//! That a text reads in one way: laws of the readers of both languages.
//!
//! `specs/Judgements` has what can be said of a source; each law is the contract of a function that does nothing.
#![tactic(auto)]

pub mod laws;
