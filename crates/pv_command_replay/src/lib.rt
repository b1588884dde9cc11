//! The command `replay CASE TRACE`. It goes through the stages of `pv_command_load`, then its trace, then the trace's scans. What it says and what
//! its types mean stands in `specs/`.
#![tactic(auto)]

mod end;
pub mod laws;
mod replay;
mod report;
mod running;
mod scans;
mod trace;

pub use end::{Cause, End};
pub use pv_command_load::laws::files_decide_one;
pub use pv_command_load::{NO_MEMORY, Status, Subject, WORDS_REFUSED, WRITE_FAULT};
pub use replay::{Ran, ReplayStop, Replayed};
pub use report::end_lines;
pub use running::{replay_in, run_in};
pub use trace::TraceStop;
