//! The text of a trace, both ways: `PLCVTRACE 1`, a line `params` with the values of the unbound parameters, a line `scan` with the
//! values of the input cells for each scan, and `end`. Values are decimal, one blank before each, and each line ends with a line feed.
#![tactic(auto)]

pub mod laws;
mod read;
mod values;
mod write;

pub use read::read_trace;
pub use write::write_trace;
