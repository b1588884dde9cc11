//! How runs end, and what has no run that fails.
ghost use Rattle.std.specs.Prelude.{◌≡◌, ◌≢◌, ◌⊎◌, ℕ, List, Bool, Option, None};
ghost use Rattle.std.specs.List.{AllByRecursion};
ghost use Rattle.pv_word.specs.Types.{InRange};
ghost use Rattle.pv_place.specs.Ranges.{AreWithin};
ghost use Rattle.pv_machine.specs.Queries.{MeetsStep};
ghost use Rattle.pv_mean.specs.Sources.{Source};
ghost use Rattle.pv_mean.specs.Frames.{Image, Input, image_ranges, input_ranges};
ghost use Rattle.pv_mean.specs.Scans.{Scan, scan};
ghost use Rattle.pv_mean.specs.Correct.{BindsInRange};
ghost use Rattle.pv_pattern.specs.Patterns.{Pattern};
ghost use Rattle.pv_pattern.specs.Failing.{Cause, ends_as, NoneFails, FailsFirst};
ghost use Rattle.pv_pattern.specs.Sources.{machine_of, IsSatisfied};

use pv_machine::laws::k_induction;
use pv_pattern::laws::{no_base_is_satisfied, sources_are_lawful};

/// Any list of scans has one end: no scan fails, or one is the first that does, for one cause.
pub fn scans_have_one_end()
    ensures some { (source : Source) (p : Pattern) (scans : List Scan)
        → NoneFails source p scans ⊎ ((n : ℕ) × (cause : Cause) × FailsFirst source p scans n cause) }
    ensures apart { (source : Source) (p : Pattern) (scans : List Scan) (n : ℕ) (cause : Cause)
        → NoneFails source p scans → FailsFirst source p scans n cause → ⊥ }
    ensures one { (source : Source) (p : Pattern) (scans : List Scan) (n m : ℕ) (cause other : Cause)
        → FailsFirst source p scans n cause → FailsFirst source p scans m other
        → (n ≡ m) × (cause ≡ other) }
{}

/// Where no scan fails from any image behind any mark by any input, each within its ranges, the
/// requirement is satisfied, where start values and bindings lie in their types: k-induction with k
/// = 0. A machine that meets step(0) has such a scan.
pub fn no_failing_scan_is_satisfied()
    ensures scans { (source : Source) (p : Pattern)
        → AllByRecursion (λ c. InRange c.ty c.start) source.cells
        → AllByRecursion BindsInRange source.cells
        → ((image : Image) (prev : Option Bool) (input : Input)
        → AreWithin (image_ranges source.cells) image
        → AreWithin (input_ranges source.cells) input
        → ends_as source p prev (scan source image input) ≡ None)
        → IsSatisfied source p }
    ensures satisfied { (source : Source) (p : Pattern)
        → AllByRecursion (λ c. InRange c.ty c.start) source.cells
        → AllByRecursion BindsInRange source.cells
        → (MeetsStep (machine_of source p) 0 → ⊥) → IsSatisfied source p }
    ensures step { (source : Source) (p : Pattern) → MeetsStep (machine_of source p) 0
        → (image : Image) × (prev : Option Bool) × (input : Input)
        × AreWithin (image_ranges source.cells) image
        × AreWithin (input_ranges source.cells) input
        × (ends_as source p prev (scan source image input) ≢ None) }
{
    k_induction();
    no_base_is_satisfied();
    sources_are_lawful();
}
