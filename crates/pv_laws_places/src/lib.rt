//! Places lie in their texts: laws on the definitions of `pv_lex`, `pv_tree` and `pv_mean`.
//!
//! The definitions stand in `specs/`; each law is the contract of a function that does nothing.
#![tactic(auto)]

pub mod laws;
pub mod stop_laws;
