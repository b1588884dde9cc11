//! Certificates: a verdict with what shows it, and their text, both ways.
//!
//! A text is read part by part: the head and the trace part (`pv_claims`), then the proofs
//! (`proofs`), then what stands behind them.
#![tactic(auto)]

mod certificate;
mod chain;
mod laws;
mod logs;
mod next;
mod parts;
mod proof;
mod proofs;
mod query;
mod reader;
mod writer;

pub use certificate::{Certificate, Proofs};
pub use laws::text_determines_certificate;
pub use proof::{Chain, Proof, Query};
pub use pv_claims::{CellValues, CertFault, Claim, Ending, ScanInputs, Trace};
pub use reader::read;
pub use writer::write;
