//! What answers a row.
use crate::arithmetic::tell_arithmetic;
use crate::certificates::{tell_certificate, tell_trace};
use crate::circuits::tell_circuit;
use crate::clauses::{tell_flip, tell_formula, tell_solver, tell_values};
use crate::logs::{tell_line, tell_verdict};
use crate::memory::{tell_files, tell_sink};
use crate::queries::{Asked, tell_query};
use crate::sources::tell_source;
use crate::texts::{tell_sample, tell_tokens};
use pv_lex::Language;
use pv_rows_form::{Calls, Row, Told, last};

/// What may stand at the beginning of a line that is no row.
pub const NAMES: [&str; 5] = ["#", "call ", "front", "back", "given"];

/// The calls of the crates below trees.
pub struct Base;

/// The row's field of this number as a text.
fn said(row: Row<'_>, number: u8, told: &mut Told) -> String {
    let alloc = told.alloc();
    String::from_utf8(row.bytes(number, told)).unwrap_or(String::new(alloc))
}

/// The row's first field between the texts of its settings.
fn whole(row: Row<'_>, told: &mut Told) -> Vec<u8> {
    let mut text = row.setting("front", told);
    let mut middle = row.bytes(0, told);
    let mut back = row.setting("back", told);
    if text.append(&mut middle).is_err() || text.append(&mut back).is_err() {
        told.lose();
    }
    text
}

/// How many words the row's solver has.
fn words(row: Row<'_>, told: &mut Told) -> u64 {
    said(row, 3, told).as_str().parse::<u64>().unwrap_or(0)
}

/// What is asked of the row's program, start and query.
fn ask(row: Row<'_>, asked: Asked<'_>, told: &mut Told) {
    let name = said(row, 0, told);
    let start = said(row, 1, told);
    let query = said(row, 2, told);
    tell_query(name.as_str(), start.as_str(), query.as_str(), asked, told);
}

/// What answers a row by its first two fields as texts.
fn tell_texts(call: &str, first: &str, second: &str, told: &mut Told) {
    match call {
        "solver" => tell_solver(first, second, told),
        "circuit" => tell_circuit(first, second, told),
        "files" => tell_files(first, second, told),
        "sink" => tell_sink(first, second, told),
        "source" => tell_source(first, second, told),
        _ => tell_arithmetic(call, first, told),
    }
}

impl Calls for Base {
    fn answer(&self, row: Row<'_>, told: &mut Told) {
        let given = last(row.head, "given").unwrap_or("");
        match last(row.head, "call ").unwrap_or("") {
            "tokens of SCL" => tell_tokens(Language::Scl, row.bytes(0, told).as_slice(), told),
            "tokens of STL" => tell_tokens(Language::Stl, row.bytes(0, told).as_slice(), told),
            "sample" => tell_sample(false, said(row, 0, told).as_str(), told),
            "sample turns" => tell_sample(true, said(row, 0, told).as_str(), told),
            "formula" => tell_formula(given, said(row, 0, told).as_str(), told),
            "flip" => tell_flip(said(row, 0, told).as_str(), told),
            "values" => tell_values(given, said(row, 0, told).as_str(), told),
            "line" => tell_line(row.bytes(0, told).as_slice(), told),
            "log" => tell_verdict(given, false, said(row, 0, told).as_str(), told),
            "new log" => tell_verdict(given, true, said(row, 0, told).as_str(), told),
            "certificate" => tell_certificate(whole(row, told).as_slice(), told),
            "query" => ask(row, Asked::Formula, told),
            "query into a solver" => ask(row, Asked::Solver(words(row, told)), told),
            "run of a query" => ask(row, Asked::Run(said(row, 3, told).as_str()), told),
            "trace" => tell_trace(given, row.bytes(0, told).as_slice(), told),
            call => tell_texts(
                call,
                said(row, 0, told).as_str(),
                said(row, 1, told).as_str(),
                told,
            ),
        }
    }
}
