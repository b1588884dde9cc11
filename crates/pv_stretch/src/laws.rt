//! Laws of stretches, each the contract of a function that does nothing.
ghost use Rattle.std.specs.Prelude.{◌≡◌, ◌↔◌, ◌+◌, ℕ, List, Bool, Option, None, length};
ghost use Rattle.pv_machine.specs.Machines.{Values, IsState};
ghost use Rattle.pv_machine.specs.Queries.{FailsAtLast};
ghost use Rattle.pv_mean.specs.Sources.{Source};
ghost use Rattle.pv_mean.specs.Frames.{Image, Input, Params, image_len};
ghost use Rattle.pv_mean.specs.Runs.{run, run_from};
ghost use Rattle.pv_pattern.specs.Patterns.{Pattern};
ghost use Rattle.pv_pattern.specs.Failing.{FailsFirstFrom};
ghost use Rattle.pv_pattern.specs.Sources.{state_of, image_in, prev_in, machine_of};
ghost use Rattle.pv_claims.specs.declared.trace.Ending.{Ending};
ghost use Rattle.pv_stretch.specs.Stretches.{stretch_of};
ghost use Rattle.pv_stretch.specs.Correct.{cause_of, IsStretchOf, FailsLast, fails_behind};

/// What a stretch says of a run's scans is so.
pub fn stretches_are_so()
    ensures { (source : Source) (p : Pattern) (prev : Option Bool) (image : Image) (inputs : List Input)
        → IsStretchOf source p prev (run_from source image inputs)
        (stretch_of source p prev (run_from source image inputs)) }
{}

/// So many scans are good and the next one fails exactly where that one is the first that fails.
pub fn first_failures_are_told()
    ensures { (source : Source) (p : Pattern) (prev : Option Bool) (image : Image) (inputs : List Input)
        (good : ℕ) (told : Ending)
        → (stretch_of source p prev (run_from source image inputs) ≡ fails_behind good told)
        ↔ FailsFirstFrom source p prev (run_from source image inputs) (good + 1) (cause_of told) }
{}

/// Parameters and inputs show a base query of the machine exactly where in the stretch from the start all scans but the last are good,
/// and the last fails.
pub fn bases_are_stretches()
    ensures { (source : Source) (p : Pattern) (params : Params) (inputs : List Input)
        → FailsAtLast (machine_of source p) ((machine_of source p).start params) inputs
        ↔ FailsLast inputs (stretch_of source p None (run source params inputs)) }
{}

/// A state and inputs show a step query of the machine exactly where it is so in the stretch from the state's image behind its mark. The
/// mark of two bits of which the first is 0 is none, whatever the second is.
pub fn steps_are_stretches()
    ensures from_image { (source : Source) (p : Pattern) (image : Image) (prev : Option Bool)
        (inputs : List Input) → length image ≡ image_len source.cells
        → FailsAtLast (machine_of source p) (state_of p image prev) inputs
        ↔ FailsLast inputs (stretch_of source p prev (run_from source image inputs)) }
    ensures from_state { (source : Source) (p : Pattern) (state : Values) (inputs : List Input)
        → IsState (machine_of source p) state
        → FailsAtLast (machine_of source p) state inputs
        ↔ FailsLast inputs (stretch_of source p (prev_in source state)
        (run_from source (image_in source state) inputs)) }
{}
