//! Laws of runs as numbers, each the contract of a function that does nothing.
ghost use Rattle.std.specs.Prelude.{◌≡◌, ℕ, ℤ, Bool, List, length};
ghost use Rattle.pv_word.specs.declared.types.Ty.{Ty};
ghost use Rattle.pv_machine.specs.Machines.{Machine, IsLawful};
ghost use Rattle.pv_cnf.specs.Clause.{Holds};
ghost use Rattle.pv_cert.specs.declared.proof.Query.{Query};
ghost use Rattle.pv_circuit.specs.declared.start.Start.{Start};
ghost use Rattle.pv_circuit.specs.Circuits.{Circuit, IsCircuit};
ghost use Rattle.pv_circuit.specs.Steps.{Form, widths, Denote, Steps};
ghost use Rattle.pv_frames.specs.Queries.{IsAsked, query_clauses};
ghost use Rattle.pv_frames.specs.Runs.{run_of};
ghost use Rattle.pv_queries.specs.Numbers.{values_of_bits, numbers_of};
ghost use Rattle.pv_queries.specs.Meeting.{MeetsBy};

/// As many bits as values of these types have denote the values that they are read as, and no others.
pub fn bits_denote_values()
    ensures some { (tys : List Ty) (bits : List Bool) → length bits ≡ widths tys
        → Denote tys bits (values_of_bits tys bits) }
    ensures one { (tys : List Ty) (bits : List Bool) (vs : List ℤ) → Denote tys bits vs
        → vs ≡ values_of_bits tys bits }
{}

/// Where a circuit does the steps of a machine, the numbers of values that make a query's formula hold are the first state and the
/// inputs of a run of the machine that meets the query.
pub fn numbers_meet_queries()
    ensures { (m : Machine) (form : Form) (start : List Start) (c : Circuit) (q : Query) (values : ℕ → Bool)
        → IsCircuit c → Steps m form start c → IsAsked q → Holds values (query_clauses c start q)
        → MeetsBy m q (numbers_of form (run_of c start q values)) }
{}

/// A machine whose steps a circuit does is lawful.
pub fn machines_of_circuits_are_lawful()
    ensures { (m : Machine) (form : Form) (start : List Start) (c : Circuit)
        → IsCircuit c → Steps m form start c → IsLawful m }
{}
