//! Laws that join the formulas of queries with a machine, each the contract of a function that does
//! nothing.
ghost use Rattle.std.specs.Prelude.{◌↔◌, ℕ, Bool, List};
ghost use Rattle.pv_machine.specs.Machines.{Machine};
ghost use Rattle.pv_machine.specs.Queries.{MeetsBase, MeetsStep};
ghost use Rattle.pv_cnf.specs.Clause.{Holds};
ghost use Rattle.pv_cert.specs.declared.proof.Query.TheVariants.{Base, Step};
ghost use Rattle.pv_circuit.specs.declared.start.Start.{Start};
ghost use Rattle.pv_circuit.specs.Circuits.{Circuit, IsCircuit};
ghost use Rattle.pv_circuit.specs.Steps.{Form, Steps};
ghost use Rattle.pv_frames.specs.Queries.{IsAsked, query_clauses};
ghost use Rattle.pv_frames.specs.Runs.{run_of};
ghost use Rattle.pv_laws_frames.specs.Standing.{StandsForBase, StandsForStep, IsSatisfied};

/// Where a circuit does the steps of a machine, values that make the formula of a query hold stand for
/// a run of the machine that meets the query: their bits, as numbers, are its first state and its
/// inputs.
pub fn values_are_runs_of_the_machine()
    ensures base { (m : Machine) (form : Form) (start : List Start) (c : Circuit) (k : ℕ) (values : ℕ → Bool)
        → IsCircuit c → Steps m form start c → IsAsked (Base k)
        → Holds values (query_clauses c start (Base k))
        → StandsForBase m form k (run_of c start (Base k) values) }
    ensures step { (m : Machine) (form : Form) (start : List Start) (c : Circuit) (k : ℕ) (values : ℕ → Bool)
        → IsCircuit c → Steps m form start c → IsAsked (Step k)
        → Holds values (query_clauses c start (Step k))
        → StandsForStep m form k (run_of c start (Step k) values) }
{}

/// Some values make the formula of a query hold exactly where the machine meets the query.
pub fn formulas_hold_where_queries_are_met()
    ensures base { (m : Machine) (form : Form) (start : List Start) (c : Circuit) (k : ℕ)
        → IsCircuit c → Steps m form start c → IsAsked (Base k)
        → (IsSatisfied (query_clauses c start (Base k)) ↔ MeetsBase m k) }
    ensures step { (m : Machine) (form : Form) (start : List Start) (c : Circuit) (k : ℕ)
        → IsCircuit c → Steps m form start c → IsAsked (Step k)
        → (IsSatisfied (query_clauses c start (Step k)) ↔ MeetsStep m k) }
{}
