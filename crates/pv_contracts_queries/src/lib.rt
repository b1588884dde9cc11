//! Contract tests of pv_queries: its calls once more, with the clauses of the library.
#![tactic(auto)]

ghost use Rattle.std.specs.Prelude.{◌≡◌, ◌+◌, ◌<◌, ◌≤◌, ℕ, pos, List, [], length, slice_index_or, IsTrue, IfOk, OnOk};
ghost use Rattle.pv_gate.specs.Node.{gate_count};
ghost use Rattle.pv_circuit.specs.Steps.{widths};
ghost use Rattle.pv_frames.specs.Pushing.{Pushes};
ghost use Rattle.pv_frames.specs.Queries.{IsAsked, query_clauses, variable_count};
ghost use Rattle.pv_frames.specs.Runs.{run_of};
ghost use Rattle.pv_queries.specs.Built.{IsBuilt, circuit_of, starts_of};
ghost use Rattle.pv_queries.specs.Numbers.{form_with, numbers_of};

use pv_cert::Query;
use pv_circuit::StepSource;
use pv_claims::ScanInputs;
use pv_cnf::{Clauses, PushFault, Values};
use pv_frames::MAX_CLAUSES_BEFORE;
use pv_gate::GateFault;
use pv_queries::{Built, MAX_BUILT_BITS, MAX_BUILT_GATES};
use pv_word::Ty;
use std::alloc::{AllocError, Global};

/// [`pv_queries::Built::build`].
pub fn build<C: StepSource>(alloc: Global, source: &C) -> Result<Built, GateFault>
    requires { widths (C.form source.now).state + widths (C.form source.now).input ≤ MAX_BUILT_BITS }
    ensures built { IfOk result (IsBuilt (C.step source.now) (C.start source.now)) }
    ensures within { OnOk result (gate_count (C.step source.now).nodes ≤ MAX_BUILT_GATES) }
    ensures limit { result ≡ Err GateFault.Limit
        → MAX_BUILT_GATES < gate_count (C.step source.now).nodes }
{
    Built::build(alloc, source)
}

/// [`pv_queries::Built::push`].
pub fn push<C: Clauses>(
    built: &Built,
    alloc: Global,
    query: Query,
    into: &mut C,
) -> Result<(), PushFault>
    requires asked { IsAsked query }
    requires takes { IsTrue (C.takes_clauses into.old) }
    requires variables { variable_count (circuit_of built.now) (starts_of built.now) query
        ≤ C.variables into.old }
    requires room { length (C.clauses into.old) ≤ MAX_CLAUSES_BEFORE }
    ensures pushes { Pushes (C.overflow into.old) (C.clauses into.old)
        (query_clauses (circuit_of built.now) (starts_of built.now) query) (C.clauses into.new) result }
    ensures variables_kept { C.variables into.new ≡ C.variables into.old }
    ensures takes_kept { C.takes_clauses into.new ≡ C.takes_clauses into.old }
    ensures overflow_kept { (all : List (List ℕ)) → C.overflow into.new all ≡ C.overflow into.old all }
{
    built.push(alloc, query, into)
}

/// The value of a cell at a scan, or 0 where there is none.
fn value_in(inputs: &ScanInputs, scan: usize, cell: usize) -> i128
    ensures { result ≡ slice_index_or (slice_index_or inputs.now scan []) cell (pos 0) }
{
    match inputs.as_slice().get(scan) {
        Some(values) => value_at(values.as_slice(), cell),
        None => 0,
    }
}

fn value_at(values: &[i128], cell: usize) -> i128
    ensures { result ≡ slice_index_or values.now cell (pos 0) }
{
    match values.get(cell) {
        Some(value) => *value,
        None => 0,
    }
}

/// The value of an input's cell at a scan of the run that values of a query's variables stand for, by [`pv_queries::Built::read`].
pub fn input_at<V: Values>(
    built: &Built,
    alloc: Global,
    query: Query,
    state: &[Ty],
    input: &[Ty],
    values: &V,
    scan: usize,
    cell: usize,
) -> Result<i128, AllocError>
    requires asked { IsAsked query }
    requires assigned { variable_count (circuit_of built.now) (starts_of built.now) query
        ≤ V.assigned values.now }
    requires state { length (circuit_of built.now).state_in ≡ widths state.now }
    requires input { length (circuit_of built.now).input ≡ widths input.now }
    ensures { IfOk result (λ value. value ≡ slice_index_or (slice_index_or (numbers_of (form_with state.now input.now)
        (run_of (circuit_of built.now) (starts_of built.now) query (V.truth values.now))).inputs scan []) cell (pos 0)) }
{
    let run = built.read(alloc, query, state, input, values)?;
    Ok(value_in(&run.inputs, scan, cell))
}
