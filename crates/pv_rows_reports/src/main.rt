//! Reads rows, each a case with its source and a stretch of scans, and prints the stretch, and the report of a claim that it shows, a line
//! a row; or with the values of one scan, and prints what the requirement says of it.
//!
//! The crate's README has the form of the rows.
#![tactic(auto)]

mod claim;
mod files;
mod judged;
mod rows;
mod trace;

use pv_rows_form::show_all;
use rows::{NAMES, Stretches};
use std::io::{self, BufReader};

fn main(rt: HostRuntime) -> io::Result<()> {
    let alloc = rt.alloc();
    let text = io::read_to_string(alloc, BufReader::new(alloc, rt.reader())?)?;
    show_all(&rt, alloc, text.as_str(), &NAMES, &Stretches)
}
