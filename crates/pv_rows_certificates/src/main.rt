//! Reads rows, each a certificate's text with what is known of a case, and prints what the certificate is judged to be, a line a row.
//!
//! The crate's README has the form of the rows.
#![tactic(auto)]

mod cases;
mod programs;

use cases::{Judging, NAMES};
use pv_rows_form::show_all;
use std::io::{self, BufReader};

fn main(rt: HostRuntime) -> io::Result<()> {
    let alloc = rt.alloc();
    let text = io::read_to_string(alloc, BufReader::new(alloc, rt.reader())?)?;
    show_all(&rt, alloc, text.as_str(), &NAMES, &Judging)
}
