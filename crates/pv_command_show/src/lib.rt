//! The command `show CASE TRACE`: a replay, and what its scans do to the cells, line by line. What it says stands in `specs/`.
#![tactic(auto)]

mod lines;
mod scans;
mod show;

pub use pv_command_replay::laws::{files_decide_one_trace, runs_end_in_one_way};
pub use pv_command_replay::{
    NO_MEMORY, ReplayStop, Replayed, Status, WORDS_REFUSED, WRITE_FAULT, files_decide_one,
    replay_in,
};
pub use show::{Shown, show_in};
