//! The text of a verdict's report.
//!
//! `text` has the lines of every verdict; the words, the head and the texts of places stand apart, since other reports have them too.
#![tactic(auto)]

mod group;
pub mod laws;
mod places;
mod report;
mod verdict;
mod words;

pub use places::{FileLines, Places};
pub use report::text;
pub use verdict::{Verdict, status};
pub use words::{head, pattern_name, trap_name};
