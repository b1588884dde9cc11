//! What answers a row.
use crate::chains::tell_gates;
use crate::numbers::tell_numbers;
use pv_rows_form::{Calls, Row, Told, last};

/// What may stand at the beginning of a line that is no row.
pub const NAMES: [&str; 2] = ["#", "call "];

/// Queries on sources of circuits.
pub struct Queries;

/// The row's field of this number as a text.
fn said(row: Row<'_>, number: u8, told: &mut Told) -> String {
    let alloc = told.alloc();
    String::from_utf8(row.bytes(number, told)).unwrap_or(String::new(alloc))
}

impl Calls for Queries {
    fn answer(&self, row: Row<'_>, told: &mut Told) {
        let first = said(row, 0, told);
        let second = said(row, 1, told);
        match last(row.head, "call ").unwrap_or("") {
            "numbers" => tell_numbers(first.as_str(), second.as_str(), told),
            "gates" => tell_gates(first.as_str(), told),
            _ => told.text("no such call"),
        }
    }
}
