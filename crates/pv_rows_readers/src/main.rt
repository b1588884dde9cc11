//! Reads rows, each a text with what reads it, and prints what is read, a line a row.
//!
//! The crate's README has the form of the rows.
#![tactic(auto)]

mod blocks;
mod calls;
mod cases;
mod fits;
mod kinds;
mod op_words;
mod statements;
mod trees;

use calls::{NAMES, Readers};
use pv_rows_form::show_all;
use std::io::{self, BufReader};

fn main(rt: HostRuntime) -> io::Result<()> {
    let alloc = rt.alloc();
    let text = io::read_to_string(alloc, BufReader::new(alloc, rt.reader())?)?;
    show_all(&rt, alloc, text.as_str(), &NAMES, &Readers)
}
