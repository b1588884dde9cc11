//! Rows, run one by one.
use crate::again::tell_again;
use crate::files::{files_of, sink_of};
use crate::ran::Ran;
use crate::telling::{tell_faults, tell_file, tell_kept, tell_queries, tell_taken};
use pv_edge::Text;
use pv_rows_form::{Calls, Row, Told, expanded, last};
use pv_top::run;
use std::alloc::{AllocError, Global};

/// What may stand at the beginning of a line that is no row.
pub const NAMES: [&str; 16] = [
    "#",
    "|",
    "words",
    "file ",
    "lines ",
    "pattern",
    "with",
    "fail read",
    "fail write",
    "piece",
    "free",
    "show kept",
    "show queries",
    "show file ",
    "show faults",
    "again",
];

/// Rows that are whole cases.
pub struct Cases;

/// The words of the command.
fn words(alloc: Global, head: &str, row: &str) -> Result<Vec<String>, AllocError> {
    let setting = last(head, "words").unwrap_or("replay c.json t.txt");
    let bytes = expanded(alloc, setting, row)?;
    let text = str::from_utf8(&bytes).unwrap_or("");
    let mut list = Vec::new(alloc);
    if !text.is_empty() {
        for word in text.split(' ') {
            list.push(String::from_str(alloc, word)?)?;
        }
    }
    Ok(list)
}

/// What became of the words of a row over its files and its sink.
fn ran(alloc: Global, row: Row<'_>) -> Result<Ran, AllocError> {
    let words = words(alloc, row.head, row.text)?;
    let mut files = files_of(alloc, row.head, row.text)?;
    let mut out = sink_of(alloc, row.head, row.text)?;
    let mut kept = Text::from(Vec::new(alloc));
    let status = run(alloc, &words, &mut files, &mut out, &mut kept);
    Ok(Ran {
        status,
        files,
        out,
        kept,
    })
}

/// Runs the words of a row, and tells what became of it.
fn answer(row: Row<'_>, told: &mut Told) -> Result<(), AllocError> {
    let mut ran = ran(told.alloc(), row)?;
    tell_taken(row, &ran, told);
    tell_kept(row, &ran, told);
    tell_queries(row, &ran, told);
    tell_file(row, &ran, told);
    tell_faults(row, &ran, told);
    tell_again(row, &mut ran, told)
}

impl Calls for Cases {
    fn answer(&self, row: Row<'_>, told: &mut Told) {
        if answer(row, told).is_err() {
            told.lose();
        }
    }
}
