//! What statements, scans and runs do, over any source: laws on the definitions of `pv_mean` and of
//! `pv_pattern`.
//!
//! The definitions stand in `specs/`; each law is the contract of a function that does nothing.
#![tactic(auto)]

pub mod laws;
pub mod name_laws;
pub mod run_laws;
pub mod step_laws;
pub mod stop_laws;
