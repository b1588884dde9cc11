//! Reads rows, each an oracle with the limits of a decision, and prints what is decided by k-induction, a line a row.
//!
//! The crate's README has the form of the rows.
#![tactic(auto)]

mod countdown;
mod decisions;
mod lists;
mod toy;

use decisions::tell_row;
use pv_rows_form::{Calls, Row, Told, show_all};
use std::io::{self, BufReader};

/// What may stand at the beginning of a line that is no row.
const NAMES: [&str; 1] = ["#"];

/// What answers a row: a decision.
struct Deciding;

/// The row's field of this number as a text.
fn said(row: Row<'_>, number: u8, told: &mut Told) -> String {
    let alloc = told.alloc();
    String::from_utf8(row.bytes(number, told)).unwrap_or(String::new(alloc))
}

impl Calls for Deciding {
    fn answer(&self, row: Row<'_>, told: &mut Told) {
        let numbers = said(row, 0, told);
        let hard = said(row, 1, told);
        tell_row(numbers.as_str(), hard.as_str(), told);
    }
}

fn main(rt: HostRuntime) -> io::Result<()> {
    let alloc = rt.alloc();
    let text = io::read_to_string(alloc, BufReader::new(alloc, rt.reader())?)?;
    show_all(&rt, alloc, text.as_str(), &NAMES, &Deciding)
}
