//! A replay: what is run, and what is reported of it.
ghost use Rattle.std.specs.Prelude.{◌≡◌, IfOk, IfErr, MatchResult};
ghost use Rattle.pv_command_load.specs.Held.{Counts, IsUnread};
ghost use Rattle.pv_command_load.specs.Subjects.{SubjectData};
ghost use Rattle.pv_command_replay.specs.Replays.{IsRan, StopsReplay, stop_status, stop_unread, SaysReplay, replay_status, replay_unread};

use crate::laws::ends_lie_in_sources;
use crate::replay::{Ran, ReplayStop, Replayed};
use crate::scans::end_of;
use crate::trace::trace_in;
use pv_command_load::subject_in;
use pv_edge::Files;
use pv_mean::laws::views_keep_paths_types_and_starts;
use std::alloc::Global;

/// Runs the trace on the case's project, scan by scan, up to the first scan that fails or reaches what is asked for. What the case is about
/// is read and refused first, then the trace.
pub fn run_in<F: Files>(
    alloc: Global,
    files: &mut F,
    case_file: &str,
    trace_file: &str,
) -> Result<Ran, ReplayStop>
    ensures files { F.told files.new ≡ F.told files.old }
    ensures ran { IfOk result (λ ran. (s : SubjectData) × IsRan (F.told files.old) case_file.now trace_file.now s ran) }
    ensures stopped { IfErr result (StopsReplay (F.told files.old) case_file.now trace_file.now) }
    ensures counted { MatchResult result
        (λ ran. F.read_faults files.new ≡ F.read_faults files.old)
        (λ stop. Counts (stop_status stop) (F.read_faults files.old) (F.read_faults files.new)) }
    ensures named { IfErr result (λ stop. IsUnread (stop_unread stop) (F.unread files.new)) }
    ensures writes { F.write_faults files.new ≡ F.write_faults files.old }
{
    ends_lie_in_sources();
    views_keep_paths_types_and_starts();
    let subject = subject_in(alloc, files, case_file)?;
    let trace = trace_in(alloc, files, trace_file, subject.table.cells())?;
    let end = end_of(alloc, &subject, &trace)?;
    Ok(Ran {
        subject,
        trace,
        end,
    })
}

/// Replays the trace on the case's project: what is reported of a run of it ([`run_in`]).
pub fn replay_in<F: Files>(
    alloc: Global,
    files: &mut F,
    case_file: &str,
    trace_file: &str,
) -> Result<Replayed, ReplayStop>
    ensures files { F.told files.new ≡ F.told files.old }
    ensures says { SaysReplay (F.told files.old) case_file.now trace_file.now result }
    ensures counted { Counts (replay_status result) (F.read_faults files.old) (F.read_faults files.new) }
    ensures named { IsUnread (replay_unread result) (F.unread files.new) }
    ensures writes { F.write_faults files.new ≡ F.write_faults files.old }
{
    let ran = run_in(alloc, files, case_file, trace_file)?;
    Ok(ran.reported())
}
