//! Calls of pv_frames.
ghost use Rattle.std.specs.Prelude.{◌≡◌, ◌≢◌, ◌≤◌, ℕ, List, length, IsTrue, OnOk, IfErr};
ghost use Rattle.pv_gate.specs.Node.{gate_count};
ghost use Rattle.pv_circuit.specs.Made.{circuit_seen};
ghost use Rattle.pv_frames.specs.Pushing.{ArePushed, StopsAt};
ghost use Rattle.pv_frames.specs.Queries.{IsAsked, query_clauses, variable_count};

use pv_cert::Query;
use pv_circuit::{Start, StepCircuit};
use pv_cnf::{Clauses, PushFault};
use pv_frames::query::MAX_QUERY_NODES;
use pv_frames::{MAX_CLAUSES_BEFORE, MAX_QUERY_GATES};
use std::alloc::Global;

/// [`pv_frames::query::push_frames`].
pub fn push_frames<C: Clauses>(
    alloc: Global,
    c: &StepCircuit,
    start: &[Start],
    query: Query,
    into: &mut C,
) -> Result<(), PushFault>
    requires start { length start.now ≡ length c.now.state_in.items }
    requires query { IsAsked query }
    requires nodes { length c.now.gates.nodes ≤ MAX_QUERY_NODES }
    requires few_gates { gate_count c.now.gates.nodes ≤ MAX_QUERY_GATES }
    requires takes { IsTrue (C.takes_clauses into.old) }
    requires variables { variable_count (circuit_seen c.now) start.now query ≤ C.variables into.old }
    requires room { length (C.clauses into.old) ≤ MAX_CLAUSES_BEFORE }
    ensures ok { OnOk result (ArePushed (C.overflow into.old) (C.clauses into.old)
        (query_clauses (circuit_seen c.now) start.now query) (C.clauses into.new)) }
    ensures err { IfErr result (λ fault. StopsAt (C.overflow into.old) (C.clauses into.old)
        (query_clauses (circuit_seen c.now) start.now query) (C.clauses into.new) fault) }
    ensures in_range { result ≢ Err PushFault.VariableOutOfRange }
    ensures distinct { result ≢ Err PushFault.Doubled }
    ensures nonempty { result ≢ Err PushFault.Empty }
    ensures variables_kept { C.variables into.new ≡ C.variables into.old }
    ensures takes_kept { C.takes_clauses into.new ≡ C.takes_clauses into.old }
    ensures overflow_kept { (all : List (List ℕ)) → C.overflow into.new all ≡ C.overflow into.old all }
{
    pv_frames::query::push_frames(alloc, c, start, query, into)
}
