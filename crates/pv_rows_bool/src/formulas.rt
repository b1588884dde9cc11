//! Formulas of patterns over blocks of the first form.
ghost use Rattle.std.specs.Prelude.{◌≡◌, ◌≤◌, length};
ghost use Rattle.pv_gate.specs.Node.{gate_count};
ghost use Rattle.pv_frames.specs.Queries.{IsAsked};

use crate::reading::{blocks_of, expression_of, query_of};
use pv_bool::Program;
use pv_bool_form::{Requirement, first_pattern};
use pv_cert::Query;
use pv_circuit::{Start, StepCircuit};
use pv_cnf::{Formula, PushFault, to_dimacs};
use pv_frames::query::{push_frames, variables};
use pv_rows_form::{Row, Told};
use pv_step::{circuit, starts};
use pv_tree::{Block, Expr};
use std::alloc::Global;

/// The formula of a query in DIMACS.
fn text_of(
    alloc: Global,
    c: &StepCircuit,
    start: &[Start],
    query: Query,
) -> Result<Vec<u8>, PushFault>
    requires start { length start.now ≡ length c.now.state_in.items }
    requires query { IsAsked query }
    requires gates { gate_count c.now.gates.nodes ≤ 100 }
    requires nodes { length c.now.gates.nodes ≤ 121 }
{
    let mut formula = Formula::make(alloc, variables(c, start, query))?;
    push_frames(alloc, c, start, query, &mut formula)?;
    Ok(to_dimacs(alloc, &formula)?)
}

fn tell_query(c: &StepCircuit, start: &[Start], query: Query, told: &mut Told)
    requires query { IsAsked query }
    requires gates { gate_count c.now.gates.nodes ≤ 100 }
    requires nodes { length c.now.gates.nodes ≤ 121 }
{
    if start.len() != c.state_in.len() {
        return told.lose();
    }
    match text_of(told.alloc(), c, start, query) {
        Ok(text) => told.bytes(text.as_slice()),
        Err(_) => told.lose(),
    }
}

/// The formula of a query over a program of at most 20 bits and 100 gates.
fn tell_program(program: &Program, query: Query, told: &mut Told)
    requires query { IsAsked query }
{
    if program.bits.len() > 20 {
        return told.text("too many bits");
    }
    let Ok(start) = starts(told.alloc(), program) else {
        return told.lose();
    };
    match circuit(told.alloc(), program, 100) {
        Ok(c) => tell_query(&c, start.as_slice(), query, told),
        Err(_) => told.lose(),
    }
}

/// The formula of a query over the block and the requirement, where both are of the first form.
fn tell_required(block: &Block, required: Requirement<'_>, said: &str, told: &mut Told) {
    let Some(query) = query_of(said) else {
        return told.text("no such query");
    };
    match first_pattern(told.alloc(), block, required) {
        Ok(Some(program)) => {
            tell_program(&program, query, told);
            drop(program);
        }
        Ok(None) => told.text("not of the first form"),
        Err(_) => told.lose(),
    }
}

/// The pattern of this name, with its expressions in their order; of those that it doesn't have any will do.
fn pattern_of<'a>(name: &str, a: &'a Expr, b: &'a Expr, c: &'a Expr) -> Requirement<'a> {
    match name {
        "invariant" => Requirement::Invariant(a),
        "forbidden" => Requirement::Forbidden(a),
        "implication" => Requirement::Implication(a, b),
        "within" => Requirement::Within(a, b),
        "between" => Requirement::Between(a, b, c),
        _ => Requirement::Reach(a),
    }
}

/// The texts of a row as expressions, and the formula.
fn tell_texts(block: &Block, name: &str, query: &str, texts: [&[u8]; 3], told: &mut Told) {
    let a = expression_of(texts[0], told);
    let b = expression_of(texts[1], told);
    let c = expression_of(texts[2], told);
    match (&a, &b, &c) {
        (Some(a), Some(b), Some(c)) => {
            tell_required(block, pattern_of(name, a, b, c), query, told);
        }
        _ => {}
    }
    drop(a);
    drop(b);
    drop(c);
}

/// The formula of the row's query: its fields are a pattern's name, the query, and the pattern's three expressions, the last of which
/// stand for those that it doesn't have.
pub fn tell_formula(row: Row<'_>, told: &mut Told) {
    let name = row.bytes(0, told);
    let query = row.bytes(1, told);
    let a = row.bytes(2, told);
    let b = row.bytes(3, told);
    let c = row.bytes(4, told);
    let blocks = blocks_of(row, told);
    let name = str::from_utf8(name.as_slice()).unwrap_or("");
    let query = str::from_utf8(query.as_slice()).unwrap_or("");
    if let Some(block) = blocks.as_slice().first() {
        tell_texts(
            block,
            name,
            query,
            [a.as_slice(), b.as_slice(), c.as_slice()],
            told,
        );
    }
    drop(blocks);
}
