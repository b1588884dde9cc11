//! The interpreter: runs of a project, scan by scan.
//!
//! A `Replay` has the values that are stored from scan to scan and the program of the entered block. A scan puts them and the input
//! into the visible cells, runs the program, and keeps what is stored; it takes no memory.
#![tactic(auto)]

mod end;
mod image;
mod replay;

pub use end::ScanEnd;
pub use replay::Replay;
