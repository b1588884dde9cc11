//! Reads rows, each an instruction of STL or a short body with what stands in registers and operands before it, and prints what stands there
//! behind it, a line a row.
//!
//! The crate's README has the form of the rows.
#![tactic(auto)]

mod bodies;
mod reading;
mod states;
mod steps;

use bodies::tell_body;
use pv_rows_form::{Calls, Row, Told, last, show_all};
use std::io::{self, BufReader};
use steps::tell_step;

/// What may stand at the beginning of a line that is no row.
const NAMES: [&str; 2] = ["#", "call "];

/// Single steps, and whole bodies.
struct Instructions;

/// The row's field of this number as a text.
fn said(row: Row<'_>, number: u8, told: &mut Told) -> String {
    let alloc = told.alloc();
    String::from_utf8(row.bytes(number, told)).unwrap_or(String::new(alloc))
}

impl Calls for Instructions {
    fn answer(&self, row: Row<'_>, told: &mut Told) {
        let first = said(row, 0, told);
        let second = said(row, 1, told);
        match last(row.head, "call ").unwrap_or("") {
            "step" => tell_step(first.as_str(), second.as_str(), told),
            _ => tell_body(first.as_str(), second.as_str(), told),
        }
    }
}

fn main(rt: HostRuntime) -> io::Result<()> {
    let alloc = rt.alloc();
    let text = io::read_to_string(alloc, BufReader::new(alloc, rt.reader())?)?;
    show_all(&rt, alloc, text.as_str(), &NAMES, &Instructions)
}
