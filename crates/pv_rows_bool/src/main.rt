//! Reads rows, each a pattern with a query, and prints the query's formula, a line a row.
//!
//! The crate's README has the form of the rows.
#![tactic(auto)]

mod calls;
mod formulas;
mod reading;

use calls::{Formulas, NAMES};
use pv_rows_form::show_all;
use std::io::{self, BufReader};

fn main(rt: HostRuntime) -> io::Result<()> {
    let alloc = rt.alloc();
    let text = io::read_to_string(alloc, BufReader::new(alloc, rt.reader())?)?;
    show_all(&rt, alloc, text.as_str(), &NAMES, &Formulas)
}
