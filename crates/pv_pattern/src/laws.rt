//! Laws of the definitions, each the contract of a function that does nothing.
ghost use Rattle.std.specs.Prelude.{◌≡◌, ◌↔◌, ◌≢◌, ℕ, List, Bool, true, false, Option, None};
ghost use Rattle.std.specs.List.{AllByRecursion};
ghost use Rattle.pv_word.specs.Types.{InRange};
ghost use Rattle.pv_place.specs.Ranges.{AreWithin};
ghost use Rattle.pv_machine.specs.Machines.{IsLawful};
ghost use Rattle.pv_machine.specs.Queries.{MeetsBase, MeetsStep, NoneFails as MachineNoneFails};
ghost use Rattle.pv_mean.specs.Sources.{Source};
ghost use Rattle.pv_mean.specs.Frames.{Input, Params, param_ranges, input_ranges};
ghost use Rattle.pv_mean.specs.Correct.{BindsInRange};
ghost use Rattle.pv_mean.specs.Scans.{Visible, Scan};
ghost use Rattle.pv_mean.specs.Runs.{run};
ghost use Rattle.pv_pattern.specs.Patterns.{Pattern, judge, mark};
ghost use Rattle.pv_pattern.specs.Reads.{reads, AreFixed, SameWhere};
ghost use Rattle.pv_pattern.specs.Failing.{Cause, ends_as, NoneFails, FailsFirst};
ghost use Rattle.pv_pattern.specs.Sources.{looks_back, machine_of, IsSatisfied};

use pv_machine::laws::{bases_are_failing_runs, no_run_fails};

/// How a scan fails depends on the mark of the scan before where the pattern looks back alone.
pub fn others_ask_for_no_mark()
    ensures { (source : Source) (p : Pattern) (x y : Option Bool) (s : Scan)
        → looks_back p ≡ false → ends_as source p x s ≡ ends_as source p y s }
{}

/// Where a pattern's indexes are literals, the cells that it doesn't read play no part in how a scan is judged, nor in the mark that
/// it leaves.
pub fn unread_cells_play_no_part()
    ensures judged { (source : Source) (p : Pattern) (prev : Option Bool)
        (begin other_begin end other_end : Visible) → AreFixed p
        → SameWhere (reads source p) begin other_begin → SameWhere (reads source p) end other_end
        → judge source p prev begin end ≡ judge source p prev other_begin other_end }
    ensures marked { (source : Source) (p : Pattern) (end other_end : Visible) → AreFixed p
        → SameWhere (reads source p) end other_end
        → mark source p end ≡ mark source p other_end }
{}

/// The machine of a source starts in a state, and its steps go from states to states, where the start
/// values lie in their types and so do the values that parameters are bound to.
pub fn sources_are_lawful()
    ensures { (source : Source) (p : Pattern)
        → AllByRecursion (λ c. InRange c.ty c.start) source.cells
        → AllByRecursion BindsInRange source.cells
        → IsLawful (machine_of source p) }
{}

/// The runs of a source are those of its machine: no scan of a run fails exactly where none of the
/// machine's steps by the same inputs does.
pub fn runs_are_the_machines()
    ensures { (source : Source) (p : Pattern) (params : Params) (inputs : List Input)
        → NoneFails source p (run source params inputs)
        ↔ MachineNoneFails (machine_of source p) ((machine_of source p).start params) inputs }
{}

/// A run whose first failing scan is its n-th makes the machine meet base(n), where its parameters
/// and inputs are within their ranges; and a machine that meets base(n) has such a run.
pub fn failing_runs_are_bases()
    ensures meets { (source : Source) (p : Pattern) (params : Params) (inputs : List Input) (n : ℕ)
        (cause : Cause)
        → AreWithin (param_ranges source.cells) params
        → AllByRecursion (AreWithin (input_ranges source.cells)) inputs
        → FailsFirst source p (run source params inputs) n cause
        → MeetsBase (machine_of source p) n }
    ensures fails { (source : Source) (p : Pattern) (n : ℕ)
        (base : MeetsBase (machine_of source p) n)
        → (cause : Cause) × FailsFirst source p (run source base.params base.inputs) n cause }
{}

/// Where the machine meets no base query the requirement is satisfied, and where the requirement is
/// satisfied the machine meets none.
pub fn no_base_is_satisfied()
    ensures { (source : Source) (p : Pattern)
        → ((n : ℕ) → MeetsBase (machine_of source p) n → ⊥) ↔ IsSatisfied source p }
{
    no_run_fails();
    bases_are_failing_runs();
}
