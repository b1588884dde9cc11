//! Which certificates are valid, over any case, and what is wrong first with others.
//!
//! A case is a trait: what is known of it, the formulas of its queries and the replay of scans are its own. A certificate is valid where
//! its claim belongs to the case, its trace replays as the claim says, and its proofs are those that belong to the claim
//! (`specs/Validity.antt`, in which no line stands); what is wrong first is one walk over its lines (`specs/Walk.antt`), and where
//! nothing is, it is valid.
#![tactic(auto)]

mod facts;
mod fault;
mod judged;
pub mod laws;

pub use facts::{CellRanges, Facts};
pub use fault::{Fault, Kind, Verdict};
pub use judged::Judged;
