//! k-induction over any oracle: the queries step(0), base(1), step(1), base(2), and so on, each put as clauses by the oracle, decided
//! by a solver and, where it is refuted, checked by its log.
//!
//! The oracle is a trait: what it stands for, how it makes the machine smaller and how queries become clauses is its own.
#![tactic(auto)]

mod ask;
mod copy;
mod deciding;
mod decision;
pub mod laws;
mod oracle;
mod told;

pub use deciding::decide;
pub use decision::{Decision, End, Limits};
pub use oracle::Oracle;
pub use told::{LAST_QUERY, OracleFault, Told};
