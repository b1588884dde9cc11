//! Reads rows, each a source with what is asked of the automaton of one of its blocks, or an operator with its operands, and prints what is
//! answered, a line a row.
//!
//! The crate's README has the form of the rows.
#![tactic(auto)]

mod accesses;
mod calls;
mod lowered;
mod places;
mod reading;
mod terms;
mod variables;

use calls::{Automata, NAMES};
use pv_rows_form::show_all;
use std::io::{self, BufReader};

fn main(rt: HostRuntime) -> io::Result<()> {
    let alloc = rt.alloc();
    let text = io::read_to_string(alloc, BufReader::new(alloc, rt.reader())?)?;
    show_all(&rt, alloc, text.as_str(), &NAMES, &Automata)
}
