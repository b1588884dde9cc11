//! The scans of a trace.
ghost use Rattle.std.specs.Prelude.{◌≡◌, ◌+◌, ◌<◌, ◌^◌, IfOk};
ghost use Rattle.pv_mean.specs.Sources.{Source};
ghost use Rattle.pv_mean.specs.Runs.{run};
ghost use Rattle.pv_pattern.specs.Patterns.{Pattern as A_pattern};
ghost use Rattle.pv_pattern.specs.Found.{IsPatternOf};
ghost use Rattle.pv_program.specs.Spelled.{IsRunWith};
ghost use Rattle.pv_stretch.specs.Stretches.{HasStarts};
ghost use Rattle.pv_command_load.specs.Subjects.{SubjectData, source_in};
ghost use Rattle.pv_command_load.specs.Made.{IsSubject};
ghost use Rattle.pv_command_replay.specs.Ends.{IsEnd};
ghost use Rattle.pv_command_replay.specs.Judged.{finished_behind, judged_at, failed_at, end_behind, IsSourceOf, HasValuesOf};

use crate::end::{Cause, End};
use pv_cells::Table;
use pv_claims::{Ending, Trace};
use pv_command_load::Subject;
use pv_mean::CaseView;
use pv_pattern::Pattern;
use pv_program::replay_of;
use pv_stretch::{Stretch, StretchEnd, StretchStart, asks_for_goal, run_stretch};
use pv_tree::Project;
use std::alloc::{AllocError, Global};

/// How a replay ends whose scans are all good.
fn finished(goal: bool, scans: u64) -> End
    ensures { result ≡ finished_behind goal scans }
{
    if goal {
        End::NotReached { scans, trap: None }
    } else {
        End::Kept { scans }
    }
}

/// How a replay ends whose scan of this number is done and fails.
fn judged(goal: bool, scan: u64) -> End
    ensures { result ≡ judged_at goal scan }
{
    if goal {
        End::Reached { scan }
    } else {
        End::Broken {
            scan,
            cause: Cause::Pattern,
        }
    }
}

/// How a replay ends whose scan of this number fails so.
fn failed(goal: bool, scan: u64, ending: Ending) -> End
    ensures { result ≡ failed_at goal scan ending }
{
    match ending {
        Ending::Pattern => judged(goal, scan),
        Ending::Trap(kind, place) => End::Broken {
            scan,
            cause: Cause::Trap(kind, place),
        },
        Ending::Over(place) => End::Over { scan, place },
    }
}

/// How a replay ends by the stretch of its scans.
fn ended(goal: bool, stretch: Stretch) -> End
    requires { stretch.good + 1 < 2 ^ 64 }
    ensures { result ≡ end_behind goal stretch }
{
    match stretch.ending {
        None => finished(goal, stretch.good),
        Some(StretchEnd::Fails(ending)) => failed(goal, stretch.good + 1, ending),
        Some(StretchEnd::Stopped(kind, place)) => End::NotReached {
            scans: stretch.good,
            trap: Some((kind, place)),
        },
    }
}

/// How the replay of the trace ends.
fn replayed(
    alloc: Global,
    project: &Project,
    view: &CaseView,
    table: &Table,
    pattern: &Pattern,
    trace: &Trace,
) -> Result<End, AllocError>
    requires { IsRunWith project.now view.now table.now }
    ensures { IfOk result (λ end. (source : Source) (p : A_pattern)
        → IsSourceOf source project.now view.now table.now → HasStarts source
        → IsPatternOf source pattern.now p → HasValuesOf source trace.now
        → IsEnd source p (run source trace.now.params trace.now.inputs) end) }
{
    let mut replay = replay_of(alloc, project, view, table)?;
    let start = StretchStart::Params(trace.params.as_slice());
    let stretch = run_stretch(&mut replay, pattern, start, trace.inputs.as_slice());
    Ok(ended(asks_for_goal(pattern), stretch))
}

/// How the replay of the trace on the subject ends.
pub(crate) fn end_of(alloc: Global, subject: &Subject, trace: &Trace) -> Result<End, AllocError>
    requires { IsRunWith subject.now.project subject.now.view subject.now.table }
    ensures { IfOk result (λ end. (s : SubjectData) → IsSubject subject.now s
        → HasStarts (source_in s) → HasValuesOf (source_in s) trace.now
        → IsEnd (source_in s) s.pattern (run (source_in s) trace.now.params trace.now.inputs) end) }
{
    replayed(
        alloc,
        &subject.project,
        &subject.view,
        &subject.table,
        &subject.pattern,
        trace,
    )
}
