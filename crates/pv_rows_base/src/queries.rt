//! Queries over step circuits: their formulas, and runs that values stand for.
ghost use Rattle.std.specs.Prelude.{◌≡◌, ◌≤◌, length, IfOk, Some, IfSome, Option, true, IsTrue};
ghost use Rattle.std.specs.Option.{is_none};
ghost use Rattle.pv_gate.specs.Node.{gate_count};
ghost use Rattle.pv_circuit.specs.Made.{circuit_seen};
ghost use Rattle.pv_frames.specs.Queries.{IsAsked, variable_count};

use crate::clauses::{Bits, bits_of, first_number};
use crate::programs::program_of;
use pv_cert::Query;
use pv_circuit::{Start, StepCircuit};
use pv_cnf::{ClauseView, Formula, PushFault, to_dimacs};
use pv_frames::query::{push_frames, variables};
use pv_frames::{BitTrace, read_frames};
use pv_gate::GateFault;
use pv_rows_form::Told;
use pv_solver::Solver;
use pv_step::circuit;
use std::alloc::{AllocError, Global};

/// The step circuit of the program of this name.
fn circuit_of(alloc: Global, name: &str) -> Result<StepCircuit, GateFault>
    ensures gates { IfOk result (λ c. gate_count c.gates.nodes ≤ 100) }
    ensures nodes { IfOk result (λ c. length c.gates.nodes ≤ 105) }
{
    let program = program_of(alloc, name)?;
    circuit(alloc, &program, 100)
}

/// The query of its words.
fn query_of(said: &str) -> Option<Query>
    ensures { IfSome result (λ q. IsAsked q) }
{
    let (kind, number) = said.split_once(' ').unwrap_or((said, ""));
    let k = first_number(number);
    if k > 64 {
        return None;
    }
    if kind == "step" {
        return Some(Query::Step(k));
    }
    if k == 0 {
        return None;
    }
    Some(Query::Base(k))
}

/// How the bits of a state begin: `0` and `1` for values that runs begin with, `f` and `t` for fixed
/// ones, `?` for a free one.
fn start_of(alloc: Global, said: &str) -> Result<Vec<Start>, AllocError> {
    let mut start = Vec::new(alloc);
    for byte in said.as_bytes() {
        start.push(match *byte {
            b'f' => Start::Fixed(false),
            b't' => Start::Fixed(true),
            b'?' => Start::Free,
            byte => Start::Begins(byte == b'1'),
        })?;
    }
    Ok(start)
}

/// The formula of a query in DIMACS.
fn text_of(
    alloc: Global,
    c: &StepCircuit,
    start: &[Start],
    query: Query,
) -> Result<Vec<u8>, PushFault>
    requires start { length start.now ≡ length c.now.state_in.items }
    requires query { IsAsked query }
    requires gates { gate_count c.now.gates.nodes ≤ 100 }
    requires nodes { length c.now.gates.nodes ≤ 105 }
{
    let mut formula = Formula::make(alloc, variables(c, start, query))?;
    push_frames(alloc, c, start, query, &mut formula)?;
    Ok(to_dimacs(alloc, &formula)?)
}

/// What a solver of so many words answers to the clauses of a query, and how many stand there then.
fn tell_filled(c: &StepCircuit, start: &[Start], query: Query, words: u64, told: &mut Told)
    requires start { length start.now ≡ length c.now.state_in.items }
    requires query { IsAsked query }
    requires gates { gate_count c.now.gates.nodes ≤ 100 }
    requires nodes { length c.now.gates.nodes ≤ 105 }
    requires words { words ≤ 1_000_000 }
{
    match Solver::make(told.alloc(), variables(c, start, query), words, 1) {
        Ok(made) => {
            let mut solver = made;
            match push_frames(told.alloc(), c, start, query, &mut solver) {
                Ok(()) => told.text("pushed"),
                Err(fault) => told.words(&fault),
            }
            told.text(" ");
            told.number(i128::from(solver.count()));
        }
        Err(fault) => told.words(&fault),
    }
}

fn tell_bits(bits: &[bool], told: &mut Told) {
    for bit in bits {
        told.text(if *bit { "1" } else { "0" });
    }
}

/// The state's bits, and behind a blank those of each scan's input.
fn tell_trace(trace: &BitTrace, told: &mut Told) {
    tell_bits(trace.state.as_slice(), told);
    for bits in trace.inputs.as_slice() {
        told.text(" ");
        tell_bits(bits.as_slice(), told);
    }
}

/// The run that values stand for, `1` for true, from the first variable on.
fn tell_run(c: &StepCircuit, start: &[Start], query: Query, values: &str, told: &mut Told)
    requires start { length start.now ≡ length c.now.state_in.items }
    requires query { IsAsked query }
    requires nodes { length c.now.gates.nodes ≤ 105 }
{
    let Ok(bits) = bits_of(told.alloc(), values) else {
        return told.lose();
    };
    if variables(c, start, query) as usize > bits.len() {
        return;
    }
    match read_frames(told.alloc(), c, start, query, &Bits(bits.as_slice())) {
        Ok(trace) => tell_trace(&trace, told),
        Err(_) => told.lose(),
    }
}

/// What is asked of a query: its formula, what a solver of so many words answers, or the run of
/// values.
#[derive(Clone, Copy)]
pub enum Asked<'a> {
    Formula,
    Solver(u64),
    Run(&'a str),
}

fn tell_asked(c: &StepCircuit, start: &str, query: &str, asked: Asked<'_>, told: &mut Told)
    requires gates { gate_count c.now.gates.nodes ≤ 100 }
    requires nodes { length c.now.gates.nodes ≤ 105 }
{
    let Ok(start) = start_of(told.alloc(), start) else {
        return told.lose();
    };
    let Some(query) = query_of(query) else {
        return;
    };
    if start.len() != c.state_in.len() {
        return;
    }
    match asked {
        Asked::Formula => match text_of(told.alloc(), c, start.as_slice(), query) {
            Ok(text) => told.bytes(text.as_slice()),
            Err(_) => told.lose(),
        },
        Asked::Solver(words) => {
            if words <= 1_000_000 {
                tell_filled(c, start.as_slice(), query, words, told);
            }
        }
        Asked::Run(values) => tell_run(c, start.as_slice(), query, values, told),
    }
}

/// What is asked of a query over the step circuit of the program of this name.
pub fn tell_query(name: &str, start: &str, query: &str, asked: Asked<'_>, told: &mut Told) {
    match circuit_of(told.alloc(), name) {
        Ok(c) => tell_asked(&c, start, query, asked, told),
        Err(_) => told.lose(),
    }
}
