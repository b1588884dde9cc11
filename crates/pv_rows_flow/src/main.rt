//! Reads rows, each an automaton with loops and a bound, and prints what becomes of it when each turn is a copy, a line a row; or each the
//! spots and loops of a layout, of which it prints the parts; or each blocks that call each other, of which it prints the first with copies of
//! those that it calls.
//!
//! The crate's README has the form of the rows.
#![tactic(auto)]

mod calling;
mod laying;
mod parts;
mod telling;

use calling::push_blocks;
use laying::layout_of;
use parts::parts_of;
use pv_flow::Parts;
use pv_inline::copy_calls;
use pv_rows_form::{Calls, Row, Told, last, show_all};
use pv_unroll::copy_loops;
use std::io::{self, BufReader};
use telling::{tell_calls, tell_copy, tell_fault, tell_large, tell_loops, tell_parts};

/// What may stand at the beginning of a line that is no row.
const NAMES: [&str; 2] = ["#", "show"];

/// What answers a row: copying loops or calls, or laying spots.
struct Copying;

/// The row's field of this number as a text.
fn said(row: Row<'_>, number: u8, told: &mut Told) -> String {
    let alloc = told.alloc();
    String::from_utf8(row.bytes(number, told)).unwrap_or(String::new(alloc))
}

/// Tells the copies of a row's automaton.
fn tell_copies(parts: Parts, bound: u32, whole: bool, told: &mut Told) {
    match copy_loops(told.alloc(), parts, bound) {
        Ok(copies) => {
            tell_parts(&copies, whole, told);
            drop(copies);
        }
        Err(fault) => tell_fault(fault, told),
    }
}

/// Tells what becomes of an automaton of these texts.
fn tell_row(numbers: &str, loops: &str, edges: &str, ends: &str, whole: bool, told: &mut Told) {
    match parts_of(told.alloc(), numbers, loops, edges, ends) {
        Ok((parts, bound)) => tell_copies(parts, bound, whole, told),
        Err(_) => told.lose(),
    }
}

/// Tells the parts of a layout of these texts.
fn tell_layout(done: &str, loops: &str, spots: &str, told: &mut Told) {
    match layout_of(told.alloc(), done, loops, spots) {
        Ok(parts) => {
            tell_parts(&parts, true, told);
            tell_loops(parts.loops.as_slice(), told);
            tell_calls(parts.calls.as_slice(), told);
            drop(parts);
        }
        Err(_) => told.lose(),
    }
}

/// Tells the first block with copies of those that it calls.
fn tell_inlined(blocks: &[Option<Parts>], whole: bool, told: &mut Told) {
    match copy_calls(told.alloc(), blocks, 0) {
        Ok(parts) => {
            tell_copy(&parts, whole, told);
            drop(parts);
        }
        Err(fault) => tell_large(fault, told),
    }
}

/// Tells what becomes of blocks of this text.
fn tell_blocks(text: &str, whole: bool, told: &mut Told) {
    let mut blocks = Vec::new(told.alloc());
    match push_blocks(told.alloc(), &mut blocks, text) {
        Ok(()) => tell_inlined(blocks.as_slice(), whole, told),
        Err(_) => told.lose(),
    }
}

impl Calls for Copying {
    fn answer(&self, row: Row<'_>, told: &mut Told) {
        let shown = last(row.head, "show");
        if shown == Some("calls") || shown == Some("call sizes") {
            tell_blocks(row.text, shown == Some("calls"), told);
            return;
        }
        let numbers = said(row, 0, told);
        let loops = said(row, 1, told);
        let edges = said(row, 2, told);
        let ends = said(row, 3, told);
        if shown == Some("layout") {
            tell_layout(numbers.as_str(), loops.as_str(), edges.as_str(), told);
            return;
        }
        let whole = shown == Some("edges");
        tell_row(
            numbers.as_str(),
            loops.as_str(),
            edges.as_str(),
            ends.as_str(),
            whole,
            told,
        );
    }
}

fn main(rt: HostRuntime) -> io::Result<()> {
    let alloc = rt.alloc();
    let text = io::read_to_string(alloc, BufReader::new(alloc, rt.reader())?)?;
    show_all(&rt, alloc, text.as_str(), &NAMES, &Copying)
}
