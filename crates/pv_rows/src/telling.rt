//! What is told of a call: its status and what the sink took, and what else a row wants to know.
use crate::ran::Ran;
use pv_edge::MemFiles;
use pv_rows_form::{Row, Told, last};
use pv_top::Status;

/// Tells a status and a blank.
pub fn tell_status(status: Status, told: &mut Told) {
    told.number(i128::from(status));
    told.text(" ");
}

/// Whether these fields, with `|` between them, have this text.
fn has_field(fields: &str, text: &str) -> bool {
    for field in fields.split('|') {
        if field.trim() == text {
            return true;
        }
    }
    false
}

/// Tells a line. Of a value that is free only what stands before it is told.
fn tell_line(free: &str, line: &str, told: &mut Told) {
    match line.split_once(" = ") {
        Some((front, _)) if has_field(free, front) => {
            told.text(front);
            told.text(" = ?");
        }
        _ => told.text(line),
    }
}

/// Tells lines in which these values are free.
fn tell_lines(free: &str, text: &str, told: &mut Told) {
    for (i, line) in text.split('\n').enumerate() {
        if i > 0 {
            told.text("\n");
        }
        tell_line(free, line, told);
    }
}

/// Tells the status and what the sink took.
pub fn tell_taken(row: Row<'_>, ran: &Ran, told: &mut Told) {
    tell_status(ran.status, told);
    let taken = ran.out.taken.as_slice();
    match last(row.head, "free") {
        Some(free) => tell_lines(free, str::from_utf8(taken).unwrap_or(""), told),
        None => told.bytes(taken),
    }
}

/// Tells what is kept, where the row wants it.
pub fn tell_kept(row: Row<'_>, ran: &Ran, told: &mut Told) {
    if last(row.head, "show kept").is_some() {
        told.text(" kept ");
        told.bytes(ran.kept.bytes());
    }
}

/// Tells the queries of the proofs that are kept, where the row wants it.
pub fn tell_queries(row: Row<'_>, ran: &Ran, told: &mut Told) {
    if last(row.head, "show queries").is_none() {
        return;
    }
    for line in str::from_utf8(ran.kept.bytes()).unwrap_or("").split('\n') {
        if line.starts_with("query ") {
            told.text(" ");
            told.text(line);
        }
    }
}

/// The bytes of the file of this name.
fn file<'a>(files: &'a MemFiles, name: &str) -> Option<&'a [u8]> {
    for file in files.files.as_slice() {
        if file.0.bytes() == name.as_bytes() {
            return Some(file.1.as_slice());
        }
    }
    None
}

/// Tells what a file holds, where the row wants it.
pub fn tell_file(row: Row<'_>, ran: &Ran, told: &mut Told) {
    let Some(name) = last(row.head, "show file ") else {
        return;
    };
    match file(&ran.files, name) {
        Some(bytes) => {
            told.text(" ");
            told.text(name);
            told.text(" ");
            told.bytes(bytes);
        }
        None => {
            told.text(" no ");
            told.text(name);
        }
    }
}

/// Tells the faults that were counted, where the row wants it: of reads, of writes, and of the sink.
pub fn tell_faults(row: Row<'_>, ran: &Ran, told: &mut Told) {
    if last(row.head, "show faults").is_some() {
        told.text(" faults ");
        told.number(i128::from(ran.files.read_faults));
        told.text(" ");
        told.number(i128::from(ran.files.write_faults));
        told.text(" ");
        told.number(i128::from(ran.out.faults));
    }
}
