//! Machines, which a program's scans are steps of, and k-induction on them.
//!
//! The definitions stand in `specs/`; the functions of `laws` are laws of them.
#![tactic(auto)]

mod joining;
pub mod laws;
mod machine;
mod pair;
mod reduction;
pub mod reduction_laws;
pub mod same_laws;

pub use joining::then;
pub use machine::Machine;
pub use pair::Then;
pub use pv_place::{Place, Role, TrapKind};
pub use reduction::Reduction;
