//! Step circuits as data: the gates of one scan of a machine, with the literals of its beginning, its
//! end and its outcome.
#![tactic(auto)]

mod circuit;
mod source;
mod start;

pub use circuit::StepCircuit;
pub use source::StepSource;
pub use start::{Start, Starts};
