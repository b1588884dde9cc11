//! Requirement patterns: where a scan fails, and the machine of a source and a pattern.
//!
//! The definitions of `specs/` speak of expressions as trees. A `Pattern` has terms in their place, whose names are found, and is
//! judged by them; which expression a term is says one record (`IsTermOf` of `specs/Terms`).
#![tactic(auto)]

pub mod laws;
mod pattern;
mod term;

pub use pattern::Pattern;
pub use term::Term;
