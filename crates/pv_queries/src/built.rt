//! A circuit that was built, and the queries on it.
ghost use Rattle.std.specs.Prelude.{◌≡◌, ◌+◌, ◌^◌, ◌<◌, ◌≤◌, ℕ, List, length, IfOk, OnOk, IsTrue};
ghost use Rattle.pv_gate.specs.Node.{gate_count};
ghost use Rattle.pv_frames.specs.declared.push.TheConstants.{MAX_QUERY_GATES};
ghost use Rattle.pv_frames.specs.declared.query.TheConstants.{MAX_QUERY_NODES};
ghost use Rattle.pv_frames.specs.Pushing.{Pushes};
ghost use Rattle.pv_frames.specs.Queries.{IsAsked, variable_count, query_clauses};
ghost use Rattle.pv_frames.specs.Runs.{run_of};
ghost use Rattle.pv_circuit.specs.Steps.{widths};
ghost use Rattle.pv_queries.specs.Numbers.{form_with, numbers_of};

use crate::numbers::{NumberRun, numbers_of};
use pv_cert::Query;
use pv_circuit::{Starts, StepCircuit, StepSource};
use pv_cnf::{Clauses, Formula, PushFault, Values};
use pv_frames::query::{MAX_QUERY_NODES, push_frames, variables};
use pv_frames::{MAX_CLAUSES_BEFORE, MAX_QUERY_GATES, read_frames};
use pv_gate::GateFault;
use pv_word::Ty;
use std::alloc::{AllocError, Global};

/// So many gates the circuit of a case may have.
pub const MAX_BUILT_GATES: u32 = 1_000_000;

/// So many bits a state and an input may have together: with them a circuit has no more nodes than a query's may.
pub const MAX_BUILT_BITS: u32 = 28_999_999;

/// A step circuit with how its state's bits begin.
#[derive(Drop)]
pub struct Built {
    circuit: StepCircuit,
    starts: Starts,
    ghost starting: { length starts ≡ length circuit.state_in.items },
    ghost few: { length circuit.gates.nodes ≤ MAX_QUERY_NODES },
    ghost few_gates: { gate_count circuit.gates.nodes ≤ MAX_QUERY_GATES },
}

impl Built {
    ghost use Rattle.pv_circuit.specs.Made.{circuit_seen};
    ghost use Rattle.pv_queries.specs.Built.{IsBuilt, circuit_of, starts_of};

    /// The circuit of a source, with how its state's bits begin. Limit exactly where it has more gates than the limit on circuits, unless
    /// memory runs out first. A state and an input have at most `MAX_BUILT_BITS` bits together.
    pub fn build<C: StepSource>(alloc: Global, source: &C) -> Result<Built, GateFault>
        requires { widths (C.form source.now).state + widths (C.form source.now).input ≤ MAX_BUILT_BITS }
        ensures built { IfOk result (IsBuilt (C.step source.now) (C.start source.now)) }
        ensures within { OnOk result (gate_count (C.step source.now).nodes ≤ MAX_BUILT_GATES) }
        ensures limit { result ≡ Err GateFault.Limit
            → MAX_BUILT_GATES < gate_count (C.step source.now).nodes }
    {
        let starts = source.starts(alloc)?;
        match source.circuit(alloc, MAX_BUILT_GATES) {
            Ok(circuit) => Ok(Built::of(circuit, starts)),
            Err(fault) => Err(fault),
        }
    }

    /// The two together.
    fn of(circuit: StepCircuit, starts: Starts) -> Built
        requires starting { length starts ≡ length circuit.state_in.items }
        requires few { length circuit.gates.nodes ≤ MAX_QUERY_NODES }
        requires few_gates { gate_count circuit.gates.nodes ≤ MAX_QUERY_GATES }
        ensures circuit { circuit_of result ≡ circuit_seen circuit }
        ensures starts { starts_of result ≡ starts }
    {
        Built { circuit, starts }
    }

    /// The number of variables of a query's formula, which are 1 to this number.
    pub fn variables(&self, query: Query) -> u32
        requires { IsAsked query }
        ensures number { result ≡ variable_count (circuit_of self.now) (starts_of self.now) query }
        ensures few { result < 2 ^ 31 }
    {
        variables(&self.circuit, self.starts.as_slice(), query)
    }

    /// Pushes the clauses of a query into a store that takes clauses, of which it has at most `MAX_CLAUSES_BEFORE`.
    pub fn push<C: Clauses>(
        &self,
        alloc: Global,
        query: Query,
        into: &mut C,
    ) -> Result<(), PushFault>
        requires asked { IsAsked query }
        requires takes { IsTrue (C.takes_clauses into.old) }
        requires variables { variable_count (circuit_of self.now) (starts_of self.now) query
            ≤ C.variables into.old }
        requires room { length (C.clauses into.old) ≤ MAX_CLAUSES_BEFORE }
        ensures pushes { Pushes (C.overflow into.old) (C.clauses into.old)
            (query_clauses (circuit_of self.now) (starts_of self.now) query) (C.clauses into.new) result }
        ensures variables_kept { C.variables into.new ≡ C.variables into.old }
        ensures takes_kept { C.takes_clauses into.new ≡ C.takes_clauses into.old }
        ensures overflow_kept { (all : List (List ℕ)) → C.overflow into.new all ≡ C.overflow into.old all }
    {
        push_frames(alloc, &self.circuit, self.starts.as_slice(), query, into)
    }

    /// The formula of a query.
    pub fn formula(&self, alloc: Global, query: Query) -> Result<Formula, AllocError>
        requires { IsAsked query }
        ensures formula { IfOk result (λ f. f ≡ record {
          variables = variable_count (circuit_of self.now) (starts_of self.now) query;
          clauses = query_clauses (circuit_of self.now) (starts_of self.now) query;
        }) }
        ensures few { variable_count (circuit_of self.now) (starts_of self.now) query < 2 ^ 31 }
    {
        let mut formula = Formula::make(alloc, self.variables(query))?;
        match push_frames(
            alloc,
            &self.circuit,
            self.starts.as_slice(),
            query,
            &mut formula,
        ) {
            Ok(()) => Ok(formula),
            Err(_) => Err(AllocError),
        }
    }

    /// The run that values of a query's variables stand for, as numbers: its bits are those of values of the types, one after another.
    pub fn read<V: Values>(
        &self,
        alloc: Global,
        query: Query,
        state: &[Ty],
        input: &[Ty],
        values: &V,
    ) -> Result<NumberRun, AllocError>
        requires asked { IsAsked query }
        requires assigned { variable_count (circuit_of self.now) (starts_of self.now) query
            ≤ V.assigned values.now }
        requires state { length (circuit_of self.now).state_in ≡ widths state.now }
        requires input { length (circuit_of self.now).input ≡ widths input.now }
        ensures { IfOk result (λ run. run ≡ numbers_of (form_with state.now input.now)
            (run_of (circuit_of self.now) (starts_of self.now) query (V.truth values.now))) }
    {
        let trace = read_frames(alloc, &self.circuit, self.starts.as_slice(), query, values)?;
        numbers_of(alloc, state, input, &trace)
    }
}
