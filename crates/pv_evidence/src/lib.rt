//! What is decided of a case, as evidence: the certificate that is made of a decision, and what is reported of it.
//!
//! Over any case that is asked queries as an oracle and replays its traces; nothing here knows of sources or circuits.
#![tactic(auto)]

mod claims;
mod decide;
mod endings;
mod evidence;
mod report;

pub use decide::decide_case;
pub use evidence::Evidence;
pub use report::reported;
