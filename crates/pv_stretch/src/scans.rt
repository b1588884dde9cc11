//! The scans of a stretch.
ghost use Rattle.std.specs.Prelude.{◌≡◌, ◌≤◌, true, None, length};
ghost use Rattle.std.specs.List.{AllByRecursion};
ghost use Rattle.pv_place.specs.Ranges.{AreWithin};
ghost use Rattle.pv_mean.specs.Sources.{Source};
ghost use Rattle.pv_mean.specs.Frames.{input_ranges};
ghost use Rattle.pv_mean.specs.Scans.{scan};
ghost use Rattle.pv_mean.specs.Runs.{run_from};
ghost use Rattle.pv_pattern.specs.Patterns.{Pattern as A_pattern, asks_for_goal};
ghost use Rattle.pv_pattern.specs.Found.{IsPatternOf};
ghost use Rattle.pv_replay.specs.Replays.{IsReplayOf, image_of, is_ready, cells_of, view_of};
ghost use Rattle.pv_stretch.specs.Stretches.{HasValues, image_at, mark_at, last_of, stretch_of};
ghost use Rattle.pv_stretch.specs.Judged.{is_goal, judged_by, trapped_by, GoesOn};

use crate::ends::{Stretch, StretchEnd, StretchStart};
use pv_claims::{CellValues, Ending};
use pv_pattern::Pattern;
use pv_place::{Place, TrapKind};
use pv_replay::{Replay, ScanEnd};

fn is_goal(pattern: &Pattern) -> bool
    ensures { result ≡ is_goal pattern.now }
{
    match pattern {
        Pattern::Reach(_) => true,
        Pattern::Invariant(_)
        | Pattern::Forbidden(_)
        | Pattern::Implication(..)
        | Pattern::Within(..)
        | Pattern::Between(..) => false,
    }
}

/// Whether the pattern asks for a goal that is to be reached.
pub fn asks_for_goal(pattern: &Pattern) -> bool
    ensures { (source : Source) (p : A_pattern) → IsPatternOf source pattern.now p
        → result ≡ asks_for_goal p }
{
    is_goal(pattern)
}

/// How a scan that traps ends a stretch.
fn trapped(goal: bool, kind: TrapKind, place: Place) -> StretchEnd
    ensures { result ≡ trapped_by goal kind place }
{
    if goal {
        StretchEnd::Stopped(kind, place)
    } else {
        StretchEnd::Fails(Ending::Trap(kind, place))
    }
}

/// How a scan that is done ends a stretch, if it does; the pattern is judged as this.
fn judged(goal: bool, holds: bool) -> Option<StretchEnd>
    ensures { result ≡ judged_by goal holds }
{
    if goal == holds {
        Some(StretchEnd::Fails(Ending::Pattern))
    } else {
        None
    }
}

/// How the next scan ends the stretch, with this input, if it does; the scan before it left the mark.
fn ended_by(
    replay: &mut Replay,
    pattern: &Pattern,
    prev: Option<bool>,
    input: &[i128],
) -> Option<StretchEnd>
    ensures ends { (source : Source) (p : A_pattern) → IsReplayOf source replay.old
        → is_ready replay.old ≡ true → IsPatternOf source pattern.now p
        → AreWithin (input_ranges source.cells) input.now
        → result ≡ last_of source p prev (scan source (image_of replay.old) input.now) }
    ensures on { (source : Source) → IsReplayOf source replay.old → is_ready replay.old ≡ true
        → AreWithin (input_ranges source.cells) input.now → result ≡ None
        → GoesOn source replay.old replay.new input.now }
    ensures lent { (cells_of replay.new ≡ cells_of replay.old)
        × (view_of replay.new ≡ view_of replay.old) }
    ensures of { (source : Source) → IsReplayOf source replay.old → IsReplayOf source replay.new }
{
    match replay.scan(input) {
        ScanEnd::Done => {
            let holds = pattern.judge(prev, replay.begin(), replay.end());
            judged(is_goal(pattern), holds)
        }
        ScanEnd::Trap(kind, place) => Some(trapped(is_goal(pattern), kind, place)),
        ScanEnd::Over(place) => Some(StretchEnd::Fails(Ending::Over(place))),
    }
}

/// The stretch with these inputs of a replay that is ready, behind a scan that left the mark.
fn scanned(
    replay: &mut Replay,
    pattern: &Pattern,
    first: Option<bool>,
    inputs: &[CellValues],
) -> Stretch
    ensures stretch { (source : Source) (p : A_pattern) → IsReplayOf source replay.old
        → is_ready replay.old ≡ true → IsPatternOf source pattern.now p
        → AllByRecursion (AreWithin (input_ranges source.cells)) inputs.now
        → result ≡ stretch_of source p first (run_from source (image_of replay.old) inputs.now) }
    ensures counted { result.good ≤ length inputs.now }
    ensures lent { (cells_of replay.new ≡ cells_of replay.old)
        × (view_of replay.new ≡ view_of replay.old) }
    ensures of { (source : Source) → IsReplayOf source replay.old → IsReplayOf source replay.new }
{
    let mut prev = first;
    for (done, input) in inputs.iter().enumerate() {
        if let Some(end) = ended_by(replay, pattern, prev, input.as_slice()) {
            return Stretch {
                good: done as u64,
                ending: Some(end),
            };
        }
        prev = Some(pattern.mark(replay.end()));
    }
    Stretch {
        good: inputs.len() as u64,
        ending: None,
    }
}

/// Makes the replay ready where the stretch begins, and answers the mark of the scan before.
fn begun(replay: &mut Replay, start: StretchStart) -> Option<bool>
    ensures mark { result ≡ mark_at start.entry }
    ensures image { (source : Source) → IsReplayOf source replay.old → HasValues source start.entry
        → image_of replay.new ≡ image_at source start.entry }
    ensures ready { is_ready replay.new ≡ true }
    ensures lent { (cells_of replay.new ≡ cells_of replay.old)
        × (view_of replay.new ≡ view_of replay.old) }
    ensures of { (source : Source) → IsReplayOf source replay.old → IsReplayOf source replay.new }
{
    match start {
        StretchStart::Params(params) => {
            replay.start(params);
            None
        }
        StretchStart::Image(image, prev) => {
            replay.set_image(image);
            prev
        }
    }
}

/// Scans with these inputs, up to the first scan that fails or isn't done: how many are good before it, and how it ends. The start has
/// its values in range, and each input one for each input cell, in the order of the table. It takes no memory.
///
/// Behind a scan that isn't done the replay isn't ready; whether it is ready before doesn't matter.
pub fn run_stretch(
    replay: &mut Replay,
    pattern: &Pattern,
    start: StretchStart,
    inputs: &[CellValues],
) -> Stretch
    ensures stretch { (source : Source) (p : A_pattern) → IsReplayOf source replay.old
        → IsPatternOf source pattern.now p → HasValues source start.entry
        → AllByRecursion (AreWithin (input_ranges source.cells)) inputs.now
        → result ≡ stretch_of source p (mark_at start.entry)
        (run_from source (image_at source start.entry) inputs.now) }
    ensures counted { result.good ≤ length inputs.now }
    ensures lent { (cells_of replay.new ≡ cells_of replay.old)
        × (view_of replay.new ≡ view_of replay.old) }
    ensures of { (source : Source) → IsReplayOf source replay.old → IsReplayOf source replay.new }
{
    let first = begun(replay, start);
    scanned(replay, pattern, first, inputs)
}
