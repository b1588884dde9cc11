//! Boolean programs as cases by which certificates are judged.
//!
//! The formulas of a case's queries are made anew of the program's step circuit, and traces are replayed on the program's bits.
#![tactic(auto)]

mod case;
mod formulas;
mod scans;
mod setting;

pub use case::ProgramCase;
pub use formulas::{MAX_CASE_BITS, MAX_CASE_GATES};
pub use setting::Setting;
