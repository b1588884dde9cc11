//! The numbers that values of a query's variables stand for.
ghost use Rattle.std.specs.Prelude.{◌≡◌, ◌≤◌, ◌-◌, length, slice_index_or, IfSome, false};
ghost use Rattle.pv_frames.specs.Queries.{IsAsked};
ghost use Rattle.pv_step.specs.Circuits.{circuit_of as words_circuit};
ghost use Rattle.pv_queries.specs.Built.{IsBuilt};
ghost use Rattle.pv_rows_queries.specs.Words.{words_program, words_starts};

use crate::words::{INPUT, STATE, Words};
use pv_cert::Query;
use pv_claims::CellValues;
use pv_cnf::{ClauseView, Formula, Values, holds};
use pv_queries::{Built, NumberRun};
use pv_rows_form::Told;
use std::alloc::{AllocError, Global};

/// The value of variable v at place v - 1.
#[derive(Drop)]
struct Bits<'a>(&'a [bool]);

impl<'a> Values for Bits<'a> {
    ghost assigned = { λ bits. length bits.0.now };

    ghost truth = { λ bits v. slice_index_or bits.0.now (v - 1) false };

    fn value(&self, v: u32) -> bool {
        self.0[v as usize - 1]
    }
}

/// The bits of a text, `1` for true and `0` for false; blanks say nothing.
fn bits_of(alloc: Global, said: &str) -> Result<Vec<bool>, AllocError> {
    let mut bits = Vec::new(alloc);
    for byte in said.as_bytes() {
        if *byte != b' ' {
            bits.push(*byte == b'1')?;
        }
    }
    Ok(bits)
}

/// The query of its words.
fn query_of(said: &str) -> Option<Query>
    ensures { IfSome result (λ q. IsAsked q) }
{
    let (kind, number) = said.split_once(' ').unwrap_or((said, ""));
    let k = number.trim().parse::<u32>().unwrap_or(255);
    if k > 64 {
        return None;
    }
    if kind == "step" {
        return Some(Query::Step(k));
    }
    if k == 0 {
        return None;
    }
    Some(Query::Base(k))
}

fn tell_values(values: &CellValues, told: &mut Told) {
    for value in values.as_slice() {
        told.text(" ");
        told.number(*value);
    }
}

/// The values of the first state, and those of each scan's input.
fn tell_run(run: &NumberRun, told: &mut Told) {
    told.text("state");
    tell_values(&run.state, told);
    for values in run.inputs.as_slice() {
        told.text("; input");
        tell_values(values, told);
    }
}

/// Whether the values make the query's formula hold.
fn tell_met(formula: &Formula, bits: &[bool], told: &mut Told) {
    if formula.variables() as usize > bits.len() {
        return told.text("; too few values");
    }
    told.text(if holds(formula, &Bits(bits)) {
        "; met"
    } else {
        "; not met"
    });
}

/// The numbers that the values stand for, and whether they make the formula hold.
fn tell_read(built: &Built, query: Query, bits: &[bool], told: &mut Told)
    requires asked { IsAsked query }
    requires built { IsBuilt (words_circuit words_program) words_starts built.now }
{
    if built.variables(query) as usize > bits.len() {
        return told.text("too few values");
    }
    match built.read(told.alloc(), query, &STATE, &INPUT, &Bits(bits)) {
        Ok(run) => tell_run(&run, told),
        Err(_) => told.lose(),
    }
    match built.formula(told.alloc(), query) {
        Ok(formula) => tell_met(&formula, bits, told),
        Err(_) => told.lose(),
    }
}

/// The same of the source of words.
fn tell_built(query: Query, bits: &[bool], told: &mut Told)
    requires { IsAsked query }
{
    match Built::build(told.alloc(), &Words) {
        Ok(built) => tell_read(&built, query, bits, told),
        Err(_) => told.lose(),
    }
}

/// The numbers that values of a query's variables stand for, the values being a text of bits from the first variable on.
pub fn tell_numbers(query: &str, values: &str, told: &mut Told) {
    let Ok(bits) = bits_of(told.alloc(), values) else {
        return told.lose();
    };
    match query_of(query) {
        Some(query) => tell_built(query, bits.as_slice(), told),
        None => told.text("no such query"),
    }
}
