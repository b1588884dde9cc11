//! Reads rows, each a whole case with its files, runs plcv on files in memory for each, and prints what it answers, a line a row.
//!
//! The crate's README has the form of the rows.
#![tactic(auto)]

mod again;
mod case;
mod files;
mod ran;
mod rows;
mod telling;

use pv_rows_form::show_all;
use rows::{Cases, NAMES};
use std::io::{self, BufReader};

fn main(rt: HostRuntime) -> io::Result<()> {
    let alloc = rt.alloc();
    let text = io::read_to_string(alloc, BufReader::new(alloc, rt.reader())?)?;
    show_all(&rt, alloc, text.as_str(), &NAMES, &Cases)
}
