//! Reads rows, each a query with values of its variables or a number of gates, and prints what is answered, a line a row.
//!
//! The crate's README has the form of the rows.
#![tactic(auto)]

mod calls;
mod chains;
mod numbers;
mod words;

use calls::{NAMES, Queries};
use pv_rows_form::show_all;
use std::io::{self, BufReader};

fn main(rt: HostRuntime) -> io::Result<()> {
    let alloc = rt.alloc();
    let text = io::read_to_string(alloc, BufReader::new(alloc, rt.reader())?)?;
    show_all(&rt, alloc, text.as_str(), &NAMES, &Queries)
}
