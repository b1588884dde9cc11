//! The command `recheck CASE CERTIFICATE`, for cases of the first form: what the case is about, then its certificate, whoever wrote it. What it
//! says and what its types mean stands in `specs/`.
#![tactic(auto)]

mod certificate;
mod judged;
pub mod laws;
mod recheck;
mod report;
mod stop;

pub use recheck::{Rechecked, recheck_in};
pub use stop::{CertificateStop, RecheckStop};
