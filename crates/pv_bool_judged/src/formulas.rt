//! The formulas of a program's queries, each made anew.
ghost use Rattle.std.specs.Prelude.{◌≡◌, ◌<◌, ◌≤◌, ◌^◌, length, IfOk, OnOk, IfErr};
ghost use Rattle.pv_gate.specs.Node.{gate_count};
ghost use Rattle.pv_bool.specs.Programs.{program_tree};
ghost use Rattle.pv_circuit.specs.Made.{circuit_seen};
ghost use Rattle.pv_step.specs.Circuits.{circuit_of};
ghost use Rattle.pv_frames.specs.Queries.{IsAsked};
ghost use Rattle.pv_bool_judged.specs.Formulas.{formula_over, formula_of, IsCause};

use pv_bool::Program;
use pv_cert::Query;
use pv_circuit::{Start, StepCircuit};
use pv_cnf::Formula;
use pv_frames::query::{MAX_QUERY_NODES, push_frames, variables};
use pv_gate::GateFault;
use pv_step::{circuit, starts};
use std::alloc::Global;

/// So many gates a circuit may have.
pub const MAX_CASE_GATES: u32 = 1_000_000;

/// So many bits a program may have: with them a circuit has no more nodes than a query's may.
pub const MAX_CASE_BITS: u32 = 28_999_999;

/// The formula of a query, made from the program.
pub(crate) fn query_formula(
    alloc: Global,
    program: &Program,
    limit: u32,
    query: Query,
) -> Result<Formula, GateFault>
    requires bits { length program.now.bits.items ≤ MAX_CASE_BITS }
    requires limit { limit ≤ MAX_CASE_GATES }
    requires query { IsAsked query }
    ensures formula { IfOk result (λ formula. formula ≡ formula_of (program_tree program.now) query) }
    ensures few { IfOk result (λ formula. formula.variables < 2 ^ 31) }
    ensures fits { OnOk result (gate_count (circuit_of (program_tree program.now)).nodes ≤ limit) }
    ensures cause { IfErr result (λ fault. IsCause limit (program_tree program.now) fault) }
{
    match circuit(alloc, program, limit) {
        Ok(step) => step_formula(alloc, program, &step, query),
        Err(fault) => Err(fault),
    }
}

/// The formula of a query, over the program's circuit.
fn step_formula(
    alloc: Global,
    program: &Program,
    step: &StepCircuit,
    query: Query,
) -> Result<Formula, GateFault>
    requires circuit { circuit_seen step.now ≡ circuit_of (program_tree program.now) }
    requires nodes { length step.now.gates.nodes ≤ MAX_QUERY_NODES }
    requires gates { gate_count step.now.gates.nodes ≤ MAX_CASE_GATES }
    requires query { IsAsked query }
    ensures formula { IfOk result (λ formula. formula ≡ formula_of (program_tree program.now) query) }
    ensures few { IfOk result (λ formula. formula.variables < 2 ^ 31) }
    ensures err { IfErr result (λ fault. fault ≡ GateFault.NoMemory) }
{
    let starts = starts(alloc, program)?;
    formula_from(alloc, step, starts.as_slice(), query)
}

/// The formula of a query of a circuit whose state begins so.
fn formula_from(
    alloc: Global,
    step: &StepCircuit,
    start: &[Start],
    query: Query,
) -> Result<Formula, GateFault>
    requires start { length start.now ≡ length step.now.state_in.items }
    requires nodes { length step.now.gates.nodes ≤ MAX_QUERY_NODES }
    requires gates { gate_count step.now.gates.nodes ≤ MAX_CASE_GATES }
    requires query { IsAsked query }
    ensures formula { IfOk result (λ formula. formula ≡ formula_over (circuit_seen step.now) start.now query) }
    ensures few { IfOk result (λ formula. formula.variables < 2 ^ 31) }
    ensures err { IfErr result (λ fault. fault ≡ GateFault.NoMemory) }
{
    let mut formula = Formula::make(alloc, variables(step, start, query))?;
    match push_frames(alloc, step, start, query, &mut formula) {
        Ok(()) => Ok(formula),
        Err(_) => Err(GateFault::NoMemory),
    }
}
