//! The formula of a query: a circuit's gates as clauses.
//!
//! Variable 1 is true; each frame of a query gives the circuit's nodes literals of their own.
//!
//! Clauses are made as small values (`Short`, four in an array) by functions without a bound; only
//! what pushes them is generic over the store. That a gate's clauses mean what the gate does is a
//! table of truth values, and that a clause is written without doubled literals is one law on lists,
//! so no gate is looked at twice.
#![tactic(auto)]

mod bits;
mod gate;
pub mod laws;
mod push;
pub mod query;
mod read;
mod short;
mod table;

pub use bits::{BitTrace, Bits, ScanBits};
pub use push::{MAX_CLAUSES_BEFORE, MAX_QUERY_GATES};
pub use read::read_frames;
