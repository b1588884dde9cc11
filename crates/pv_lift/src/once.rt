//! The queries on a circuit that is built once.
ghost use Rattle.std.specs.Prelude.{◌≡◌, ◌≢◌, ◌<◌, ◌≤◌, ◌^◌, ℕ, List, [], length, IsTrue, IfOk, IfSome};
ghost use Rattle.pv_circuit.specs.Steps.{widths};
ghost use Rattle.pv_mean.specs.Frames.{image_len};
ghost use Rattle.pv_frames.specs.Pushing.{Pushes};
ghost use Rattle.pv_frames.specs.Queries.{IsAsked, variable_count, query_clauses};
ghost use Rattle.pv_frames.specs.Runs.{run_of};
ghost use Rattle.pv_queries.specs.Built.{circuit_of, starts_of};
ghost use Rattle.pv_queries.specs.Numbers.{form_with, numbers_of};
ghost use Rattle.pv_lift.specs.Traces.{trace_of};
ghost use Rattle.pv_lift.specs.Cases.{formula_of};

use crate::trace::trace_told;
use pv_cert::Query;
use pv_claims::Trace;
use pv_cnf::{Clauses, Formula, PushFault, Values};
use pv_gate::GateFault;
use pv_kind::OracleFault;
use pv_mean::Cell;
use pv_queries::Built;
use pv_word::Ty;
use std::alloc::{AllocError, Global};

/// The number of variables of a query's formula, once there is a circuit.
pub(crate) fn count(built: &Option<Built>, query: Query) -> Result<u32, OracleFault>
    requires { IsAsked query }
    ensures number { IfSome built.now (λ b. IfOk result (λ n. n
        ≡ variable_count (circuit_of b) (starts_of b) query)) }
    ensures gates { result ≢ Err OracleFault.Gates }
{
    match built {
        Some(built) => Ok(built.variables(query)),
        None => Err(OracleFault::NoMemory),
    }
}

/// Pushes the clauses of a query into a store without clauses, once there is a circuit.
pub(crate) fn push<D: Clauses>(
    built: &Option<Built>,
    alloc: Global,
    query: Query,
    into: &mut D,
) -> Result<(), PushFault>
    requires asked { IsAsked query }
    requires takes { IsTrue (D.takes_clauses into.old) }
    requires none { D.clauses into.old ≡ [] }
    requires variables { IfSome built.now (λ b. variable_count (circuit_of b) (starts_of b) query
        ≤ D.variables into.old) }
    ensures pushes { IfSome built.now (λ b. Pushes (D.overflow into.old) (D.clauses into.old)
        (query_clauses (circuit_of b) (starts_of b) query) (D.clauses into.new) result) }
    ensures variables_kept { D.variables into.new ≡ D.variables into.old }
    ensures takes_kept { D.takes_clauses into.new ≡ D.takes_clauses into.old }
    ensures overflow_kept { (all : List (List ℕ)) → D.overflow into.new all ≡ D.overflow into.old all }
{
    match built {
        Some(built) => built.push(alloc, query, into),
        None => Err(PushFault::NoMemory),
    }
}

/// The formula of a query by the circuit.
fn formula_by(built: &Built, alloc: Global, query: Query) -> Result<Formula, GateFault>
    requires { IsAsked query }
    ensures formula { IfOk result (λ f. f
        ≡ formula_of (circuit_of built.now) (starts_of built.now) query) }
    ensures few { IfOk result (λ f. f.variables < 2 ^ 31) }
    ensures cause { result ≢ Err GateFault.Limit }
{
    let formula = built.formula(alloc, query)?;
    Ok(formula)
}

/// The formula of a query, once there is a circuit.
pub(crate) fn formula(
    built: &Option<Built>,
    alloc: Global,
    query: Query,
) -> Result<Formula, GateFault>
    requires { IsAsked query }
    ensures formula { IfSome built.now (λ b. IfOk result (λ f. f
        ≡ formula_of (circuit_of b) (starts_of b) query)) }
    ensures few { IfOk result (λ f. f.variables < 2 ^ 31) }
    ensures cause { result ≢ Err GateFault.Limit }
{
    match built {
        Some(built) => formula_by(built, alloc, query),
        None => Err(GateFault::NoMemory),
    }
}

/// The trace that values of a query's variables stand for, once there is a circuit.
pub(crate) fn told<V: Values>(
    built: &Option<Built>,
    alloc: Global,
    cells: &[Cell],
    query: Query,
    state: &[Ty],
    input: &[Ty],
    values: &V,
) -> Result<Trace, AllocError>
    requires asked { IsAsked query }
    requires assigned { IfSome built.now (λ b. variable_count (circuit_of b) (starts_of b) query
        ≤ V.assigned values.now) }
    requires state { IfSome built.now (λ b. length (circuit_of b).state_in ≡ widths state.now) }
    requires input { IfSome built.now (λ b. length (circuit_of b).input ≡ widths input.now) }
    requires room { image_len cells.now ≤ length state.now }
    ensures { IfSome built.now (λ b. IfOk result (λ trace. trace ≡ trace_of cells.now query (numbers_of
        (form_with state.now input.now)
        (run_of (circuit_of b) (starts_of b) query (V.truth values.now))))) }
{
    match built {
        Some(built) => trace_told(alloc, built, cells, query, state, input, values),
        None => Err(AllocError),
    }
}
