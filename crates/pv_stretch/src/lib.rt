//! Stretches of scans, judged one by one: how many are good, and how the one behind them ends.
//!
//! A stretch begins at the start, or at any image behind any mark. What it says is a function of the run's scans, and laws join it
//! with the queries on the machine of a source and a pattern.
#![tactic(auto)]

mod ends;
pub mod laws;
mod scans;

pub use ends::{Stretch, StretchEnd, StretchStart};
pub use scans::{asks_for_goal, run_stretch};
