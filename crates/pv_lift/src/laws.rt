//! Laws of lifts, each the contract of a function that only calls laws.
ghost use Rattle.std.specs.Prelude.{◌↔◌, ℕ, Bool, List};
ghost use Rattle.pv_cnf.specs.Clause.{Holds};
ghost use Rattle.pv_machine.specs.Machines.{Machine, IsLawful};
ghost use Rattle.pv_machine.specs.Same.{IsSame};
ghost use Rattle.pv_mean.specs.Sources.{Source};
ghost use Rattle.pv_pattern.specs.Patterns.{Pattern};
ghost use Rattle.pv_pattern.specs.Sources.{looks_back, machine_of};
ghost use Rattle.pv_cert.specs.declared.proof.Proof.{Proof};
ghost use Rattle.pv_cert.specs.declared.proof.Query.{Query};
ghost use Rattle.pv_circuit.specs.declared.start.Start.{Start};
ghost use Rattle.pv_circuit.specs.Circuits.{Circuit, IsCircuit};
ghost use Rattle.pv_circuit.specs.Steps.{Form, Steps};
ghost use Rattle.pv_frames.specs.Queries.{query_clauses};
ghost use Rattle.pv_kind.specs.declared.decision.End.{End};
ghost use Rattle.pv_kind.specs.declared.decision.Limits.{Limits};
ghost use Rattle.pv_kind.specs.Refinements.{Stage};
ghost use Rattle.pv_kind.specs.Oracles.{IsAsked, Meets};
ghost use Rattle.pv_kind.specs.Decisions.{Decides};
ghost use Rattle.pv_lift.specs.Decided.{SaysOf};
ghost use Rattle.pv_lift.specs.Stages.{encoding_of};

use pv_kind::laws::no_run_fails_early;
use pv_pattern::laws::no_base_is_satisfied;

/// Some values make a query's formula hold exactly where the source's machine meets the query.
pub fn formulas_are_exact()
    ensures { (source : Source) (p : Pattern) (m : Machine) (form : Form) (start : List Start) (c : Circuit) (q : Query)
        → IsCircuit c → Steps m form start c → IsSame (machine_of source p) m → IsAsked q
        → Meets (machine_of source p) q ↔ ((values : ℕ → Bool) × Holds values (query_clauses c start q)) }
{}

/// What k-induction ends with over a lift is so of the source: that the requirement is satisfied, or that the run by the trace fails first
/// at its last scan and none earlier, or that the trace's scans go on from its image so far.
pub fn decisions_are_of_the_source()
    ensures { (source : Source) (p : Pattern) (m : Machine) (c : Circuit) (start : List Start) (first last : Stage) (limits : Limits)
        (proofs : List Proof) (end : End)
        → IsLawful m → IsSame (machine_of source p) m
        → Decides m (encoding_of m c start source.cells (looks_back p)) first last limits proofs end
        → SaysOf source p limits end }
{
    no_run_fails_early();
    no_base_is_satisfied();
}
