//! Laws of the formulas, each the contract of a function that does nothing.
ghost use Rattle.std.specs.Prelude.{◌≡◌, ◌↔◌, ◌≤◌, ℕ, Bool, List, length};
ghost use Rattle.pv_gate.specs.Node.{gate_count};
ghost use Rattle.pv_cnf.specs.Clause.{Holds};
ghost use Rattle.pv_circuit.specs.declared.start.Start.{Start};
ghost use Rattle.pv_circuit.specs.Circuits.{Circuit, IsCircuit};
ghost use Rattle.pv_cert.specs.declared.proof.Query.{Query};
ghost use Rattle.pv_frames.specs.Queries.{IsAsked, IsFormula, query_clauses};
ghost use Rattle.pv_frames.specs.Runs.{BitRun, Meets, run_of, HasValues, AreScans};

use crate::push::MAX_QUERY_GATES;
use crate::query::MAX_QUERY_NODES;

/// The formula of a query is over its variables, and few enough to be counted.
pub fn queries_are_formulas()
    ensures { (c : Circuit) (start : List Start) (q : Query)
        → IsCircuit c → length start ≡ length c.state_in → IsAsked q
        → length c.nodes ≤ MAX_QUERY_NODES → gate_count c.nodes ≤ MAX_QUERY_GATES
        → IsFormula c start q }
{}

/// Values that make the formula of a query hold stand for a run of the circuit's bits that meets it: a
/// base query's from the start, a step query's from some state.
pub fn values_are_runs()
    ensures { (c : Circuit) (start : List Start) (q : Query) (values : ℕ → Bool)
        → IsCircuit c → length start ≡ length c.state_in → IsAsked q
        → Holds values (query_clauses c start q) → Meets c start q (run_of c start q values) }
{}

/// Each run of the circuit's bits that meets a query comes from values by which the query's formula
/// holds.
pub fn runs_have_values()
    ensures { (c : Circuit) (start : List Start) (q : Query) (run : BitRun)
        → IsCircuit c → Meets c start q run → HasValues c start q run }
{}

/// Values make the formula of a query hold exactly where variable 1 is true, each node of each frame
/// has the value that it has under that frame's inputs, and what is asked of each scan is true.
pub fn queries_hold_by_scans()
    ensures { (c : Circuit) (start : List Start) (q : Query) (values : ℕ → Bool)
        → IsCircuit c → (Holds values (query_clauses c start q) ↔ AreScans c start q values) }
{}
