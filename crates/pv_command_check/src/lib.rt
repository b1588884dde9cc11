//! The command `check CASE`, for cases of the first form: k-induction on what the case is about, and the verdict with its evidence. What it
//! says and what its types mean stands in `specs/`.
#![tactic(auto)]

mod check;
mod decided;
pub mod laws;
mod stop;
mod texts;
mod written;

pub use check::{Checked, check_in};
pub use pv_claims::Claim;
pub use pv_command_verdict::what_is_read_stays;
pub use stop::CheckStop;
