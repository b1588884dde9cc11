//! Reads rows, each a source with what is asked of it, and prints what is answered, a line a row.
//!
//! The crate's README has the form of the rows.
#![tactic(auto)]

mod calls;
mod cells;
mod forms;
mod leaves;
mod patterns;
mod reading;
mod rules;
mod scans;
mod sizes;

use calls::{Meanings, NAMES};
use pv_rows_form::show_all;
use std::io::{self, BufReader};

fn main(rt: HostRuntime) -> io::Result<()> {
    let alloc = rt.alloc();
    let text = io::read_to_string(alloc, BufReader::new(alloc, rt.reader())?)?;
    show_all(&rt, alloc, text.as_str(), &NAMES, &Meanings)
}
