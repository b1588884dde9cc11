//! Stretches of pv_stretch.
ghost use Rattle.std.specs.Prelude.{◌≡◌, ◌≤◌, length};
ghost use Rattle.std.specs.List.{AllByRecursion};
ghost use Rattle.pv_place.specs.Ranges.{AreWithin};
ghost use Rattle.pv_mean.specs.Sources.{Source};
ghost use Rattle.pv_mean.specs.Frames.{input_ranges};
ghost use Rattle.pv_mean.specs.Runs.{run_from};
ghost use Rattle.pv_pattern.specs.Patterns.{Pattern as A_pattern, asks_for_goal};
ghost use Rattle.pv_pattern.specs.Found.{IsPatternOf};
ghost use Rattle.pv_replay.specs.Replays.{IsReplayOf, cells_of, view_of};
ghost use Rattle.pv_stretch.specs.Stretches.{HasValues, image_at, mark_at, stretch_of};

use pv_claims::CellValues;
use pv_pattern::Pattern;
use pv_replay::Replay;
use pv_stretch::{Stretch, StretchStart};

/// [`pv_stretch::run_stretch`].
pub fn run_stretch(
    replay: &mut Replay,
    pattern: &Pattern,
    start: StretchStart,
    inputs: &[CellValues],
) -> Stretch
    ensures stretch { (source : Source) (p : A_pattern) → IsReplayOf source replay.old
        → IsPatternOf source pattern.now p → HasValues source start.entry
        → AllByRecursion (AreWithin (input_ranges source.cells)) inputs.now
        → result ≡ stretch_of source p (mark_at start.entry)
        (run_from source (image_at source start.entry) inputs.now) }
    ensures counted { result.good ≤ length inputs.now }
    ensures lent { (cells_of replay.new ≡ cells_of replay.old)
        × (view_of replay.new ≡ view_of replay.old) }
    ensures of { (source : Source) → IsReplayOf source replay.old → IsReplayOf source replay.new }
{
    pv_stretch::run_stretch(replay, pattern, start, inputs)
}

/// [`pv_stretch::asks_for_goal`].
pub fn asks_for_goal(pattern: &Pattern) -> bool
    ensures { (source : Source) (p : A_pattern) → IsPatternOf source pattern.now p
        → result ≡ asks_for_goal p }
{
    pv_stretch::asks_for_goal(pattern)
}
