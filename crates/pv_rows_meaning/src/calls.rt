//! What answers a row.
use crate::cells::{tell_count, tell_table, tell_view};
use crate::forms::{tell_circuit, tell_form};
use crate::leaves::tell_leaves;
use crate::patterns::{tell_faults, tell_named};
use crate::rules::{tell_breaches, tell_checked, tell_type};
use crate::scans::tell_scans;
use crate::sizes::tell_size;
use pv_rows_form::{Calls, Row, Told, last};

/// What may stand at the beginning of a line that is no row.
pub const NAMES: [&str; 15] = [
    "#",
    "call ",
    "source",
    "symbols",
    "entry",
    "named",
    "expression",
    "scans",
    "params",
    "bound",
    "paths",
    "loops",
    "said",
    "steps",
    "limit",
];

/// The calls on sources that have been read.
pub struct Meanings;

impl Calls for Meanings {
    fn answer(&self, row: Row<'_>, told: &mut Told) {
        match last(row.head, "call ").unwrap_or("") {
            "leaves" => tell_leaves(row, told),
            "cells" => tell_table(row, told),
            "count" => tell_count(row, told),
            "view" => tell_view(row, told),
            "first form" => tell_form(row, told),
            "circuit" => tell_circuit(row, told),
            "type" => tell_type(row, told),
            "checked" => tell_checked(row, told),
            "breaches" => tell_breaches(row, told),
            "fault" => tell_faults(row, told),
            "named" => tell_named(row, told),
            "scans" => tell_scans(row, told),
            "size" => tell_size(row, told),
            _ => told.text("no such call"),
        }
    }
}
