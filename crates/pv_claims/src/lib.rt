//! What certificates claim, and the traces that show it: their types, and the lines of certificates
//! up to the proofs, both ways.
//!
//! A certificate's text is read part by part: the head (`read_head`), the trace part
//! (`read_trace_part`), and what stands behind them. Each part is handed the text that is left, and
//! tells what it says and what is left behind it, or where no such part goes on.
#![tactic(auto)]

mod claim;
mod fault;
mod heads;
mod lines;
mod numbers;
mod stop;
mod trace;
mod traces;
mod values;
mod words;
mod write;

pub use claim::{Claim, TraceForm, trace_form};
pub use fault::CertFault;
pub use heads::read_head;
pub use lines::{cut_line, strip};
pub use numbers::{number, number_behind};
pub use stop::Stop;
pub use trace::{CellValues, Ending, ScanInputs, Trace};
pub use traces::read_trace_part;
pub use words::cut_word;
pub use write::{push_head, push_trace_part};
