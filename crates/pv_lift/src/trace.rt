//! Traces of runs as numbers.
ghost use Rattle.std.specs.Prelude.{◌≡◌, ◌≤◌, pos, [], ◌∷◌, ◌++◌, cond, if◌then◌else◌, length, slice_index_or, IfOk, OnOk};
ghost use Rattle.pv_place.specs.Roles.{is_stored};
ghost use Rattle.pv_mean.specs.Values.{is_true};
ghost use Rattle.pv_mean.specs.Frames.{is_free, image_len};
ghost use Rattle.pv_pattern.specs.Sources.{mark_by, mark_in};
ghost use Rattle.pv_circuit.specs.Steps.{widths};
ghost use Rattle.pv_frames.specs.Queries.{IsAsked, variable_count};
ghost use Rattle.pv_frames.specs.Runs.{run_of};
ghost use Rattle.pv_queries.specs.Built.{circuit_of, starts_of};
ghost use Rattle.pv_queries.specs.Numbers.{form_with, numbers_of};
ghost use Rattle.pv_lift.specs.Traces.{free_in, run_trace, stretch_trace, trace_of};

use pv_cert::Query;
use pv_claims::{CellValues, Trace};
use pv_cnf::Values;
use pv_mean::Cell;
use pv_place::Role;
use pv_queries::{Built, NumberRun};
use pv_word::Ty;
use std::alloc::{AllocError, Global};

/// How many cells are stored from scan to scan.
fn stored_count(cells: &[Cell]) -> usize
    ensures { result ≡ image_len cells.now }
{
    cells.iter().filter(|cell| cell.role.is_stored()).count()
}

/// Whether the cell is a parameter that no binding gives its value.
pub(crate) fn is_free(cell: &Cell) -> bool
    ensures { result ≡ is_free cell.now.role cell.now.bound }
{
    match cell.role {
        Role::Param => cell.bound.is_none(),
        Role::Input | Role::Kept | Role::Brief => false,
    }
}

/// The value at a place, or 0 where there is none.
fn value_at(values: &[i128], n: usize) -> i128
    ensures { result ≡ slice_index_or values.now n (pos 0) }
{
    match values.get(n) {
        Some(value) => *value,
        None => 0,
    }
}

/// Adds the value of the cell, if it is a parameter that no binding gives its value.
fn push_free(values: &mut CellValues, cell: &Cell, value: i128) -> Result<(), AllocError>
    ensures { OnOk result (values.new
        ≡ values.old ++ (if is_free cell.now.role cell.now.bound then value ∷ [] else [])) }
{
    if is_free(cell) {
        values.push(value)?;
    }
    Ok(())
}

/// How many values an image has for the cell.
fn width_in_image(cell: &Cell) -> usize
    ensures width { result ≡ cond (is_stored cell.now.role) 1 0 }
    ensures few { result ≤ 1 }
{
    if cell.role.is_stored() { 1 } else { 0 }
}

/// The values of the parameters that no binding gives one.
fn free_values(alloc: Global, cells: &[Cell], image: &[i128]) -> Result<CellValues, AllocError>
    ensures { IfOk result (λ values. values ≡ free_in cells.now image.now) }
{
    let mut values = CellValues::new(alloc);
    let mut at = 0;
    for cell in cells {
        push_free(&mut values, cell, value_at(image, at))?;
        at += width_in_image(cell);
    }
    Ok(values)
}

/// The same values.
fn copied(alloc: Global, values: &[i128]) -> Result<CellValues, AllocError>
    ensures { IfOk result (λ copy. copy ≡ values.now) }
{
    let mut copy = CellValues::new(alloc);
    for n in 0..values.len() {
        copy.push(value_at(values, n))?;
    }
    Ok(copy)
}

/// Whether the value at a place is 1.
fn is_one(values: &[i128], n: usize) -> bool
    ensures { result ≡ is_true (slice_index_or values.now n (pos 0)) }
{
    value_at(values, n) == 1
}

fn mark_by(has: bool, was: bool) -> Option<bool>
    ensures { result ≡ mark_by has was }
{
    if has { Some(was) } else { None }
}

/// The mark of two bits: none where the first is 0, or where there are none.
fn mark_in(bits: &[i128]) -> Option<bool>
    ensures { result ≡ mark_in bits.now }
{
    if bits.len() < 2 {
        return None;
    }
    mark_by(is_one(bits, 0), is_one(bits, 1))
}

/// The trace of a run from the start.
fn run_trace(alloc: Global, cells: &[Cell], run: NumberRun) -> Result<Trace, AllocError>
    ensures { IfOk result (λ trace. trace ≡ run_trace cells.now run) }
{
    let NumberRun { state, inputs } = run;
    let params = free_values(alloc, cells, state.as_slice())?;
    Ok(Trace {
        image: None,
        prev: None,
        params,
        inputs,
    })
}

/// The trace of scans from any state.
fn stretch_trace(alloc: Global, cells: &[Cell], run: NumberRun) -> Result<Trace, AllocError>
    requires { image_len cells.now ≤ length run.state }
    ensures { IfOk result (λ trace. trace ≡ stretch_trace cells.now run) }
{
    let NumberRun { state, inputs } = run;
    let count = stored_count(cells);
    let image = copied(alloc, &state.as_slice()[..count])?;
    let prev = mark_in(&state.as_slice()[count..]);
    Ok(Trace {
        image: Some(image),
        prev,
        params: CellValues::new(alloc),
        inputs,
    })
}

/// The trace of a run that meets the query.
fn trace_of(
    alloc: Global,
    cells: &[Cell],
    query: Query,
    run: NumberRun,
) -> Result<Trace, AllocError>
    requires { image_len cells.now ≤ length run.state }
    ensures { IfOk result (λ trace. trace ≡ trace_of cells.now query run) }
{
    match query {
        Query::Base(_) => run_trace(alloc, cells, run),
        Query::Step(_) => stretch_trace(alloc, cells, run),
    }
}

/// The trace that values of a query's variables stand for.
pub(crate) fn trace_told<V: Values>(
    alloc: Global,
    built: &Built,
    cells: &[Cell],
    query: Query,
    state: &[Ty],
    input: &[Ty],
    values: &V,
) -> Result<Trace, AllocError>
    requires asked { IsAsked query }
    requires assigned { variable_count (circuit_of built.now) (starts_of built.now) query
        ≤ V.assigned values.now }
    requires state { length (circuit_of built.now).state_in ≡ widths state.now }
    requires input { length (circuit_of built.now).input ≡ widths input.now }
    requires room { image_len cells.now ≤ length state.now }
    ensures { IfOk result (λ trace. trace ≡ trace_of cells.now query (numbers_of
        (form_with state.now input.now)
        (run_of (circuit_of built.now) (starts_of built.now) query (V.truth values.now)))) }
{
    let run = built.read(alloc, query, state, input, values)?;
    trace_of(alloc, cells, query, run)
}
