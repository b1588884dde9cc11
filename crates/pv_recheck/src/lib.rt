//! Whether a certificate of 'satisfied' is valid for a Boolean program: its log is checked against the
//! formula that is made anew from the program.
//!
//! What a check answers is a relation over the results, case by case, and no two cases but want of
//! memory hold of one certificate: so 'exactly where' comes with each of them. A valid certificate's
//! log leaves no values that make the formula of step(0) hold, those of the nodes under a scan that
//! fails among them; so no scan fails from any state, and no run has one that does.
#![tactic(auto)]

mod check;
mod fault;
mod form;
pub mod laws;
mod stop;

pub use check::{MAX_STEP_BITS, MAX_STEP_GATES, check_certificate};
pub use fault::{Kind, RecheckFault};
