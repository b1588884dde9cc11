//! Reads rows, each the arguments of a call, and prints what the call answers, a line a row.
//!
//! The crate's README has the form of the rows.
#![tactic(auto)]

mod arithmetic;
mod calls;
mod certificates;
mod circuits;
mod clauses;
mod logs;
mod memory;
mod programs;
mod queries;
mod sources;
mod texts;

use calls::{Base, NAMES};
use pv_rows_form::show_all;
use std::io::{self, BufReader};

fn main(rt: HostRuntime) -> io::Result<()> {
    let alloc = rt.alloc();
    let text = io::read_to_string(alloc, BufReader::new(alloc, rt.reader())?)?;
    show_all(&rt, alloc, text.as_str(), &NAMES, &Base)
}
