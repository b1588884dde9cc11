//! Clauses, lemmas with their hints and lists of watches in one block of words, which is reserved when it is made.
//!
//! Clauses and lemmas are numbered in the order in which they came, from 1, the clauses first. Each has two slots,
//! 0 and 1, and each slot may stand in the list of one literal. Contracts see a [`Region`] as plain data, and each
//! call as its function on that.
#![tactic(auto)]

mod fault;
mod region;
mod watch;
mod words;

pub use fault::{Full, MakeFault};
pub use region::Region;
pub use watch::Watch;
