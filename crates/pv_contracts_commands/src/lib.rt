//! Contract tests of the commands, `pv_command_replay`, `pv_command_show`, `pv_command_recheck` and `pv_top`.
//!
//! Each public call whose clauses are no equation of what it answers stands here once more, with the library's clauses, by the call itself.
//! An edit of `must-fail` gives a wrong answer in its place: a run that ends with the same status whatever it came to, one for each status but
//! that of memory's end.
#![tactic(auto)]

ghost use Rattle.pv_command_replay.specs.Handed.{Counts, IsUnread, SubjectData};
ghost use Rattle.pv_command_recheck.specs.Rechecks.{SaysRecheck, recheck_status, recheck_unread};
ghost use Rattle.pv_command_replay.specs.Replays.{IsRan, SaysReplay, StopsReplay, replay_status, replay_unread, stop_status, stop_unread};
ghost use Rattle.pv_command_show.specs.Shows.{SaysShow, show_status, show_unread};
ghost use Rattle.pv_top.specs.Promises.{Promises};
ghost use Rattle.std.specs.Prelude.{IfErr, IfOk, MatchResult, map, string_bytes, ◌≡◌};

pub mod laws;

use pv_command_recheck::{RecheckStop, Rechecked};
use pv_command_replay::{Ran, ReplayStop, Replayed};
use pv_command_show::Shown;
use pv_edge::{Files, Sink, Text};
use pv_top::Status;
use std::alloc::Global;

/// [`pv_command_replay::run_in`].
pub fn run_in<F: Files>(
    alloc: Global,
    files: &mut F,
    case_file: &str,
    trace_file: &str,
) -> Result<Ran, ReplayStop>
    ensures files { F.told files.new ≡ F.told files.old }
    ensures ran { IfOk result (λ ran. (s : SubjectData) × IsRan (F.told files.old) case_file.now trace_file.now s ran) }
    ensures stopped { IfErr result (StopsReplay (F.told files.old) case_file.now trace_file.now) }
    ensures counted { MatchResult result
        (λ ran. F.read_faults files.new ≡ F.read_faults files.old)
        (λ stop. Counts (stop_status stop) (F.read_faults files.old) (F.read_faults files.new)) }
    ensures named { IfErr result (λ stop. IsUnread (stop_unread stop) (F.unread files.new)) }
    ensures writes { F.write_faults files.new ≡ F.write_faults files.old }
{
    pv_command_replay::run_in(alloc, files, case_file, trace_file)
}

/// [`pv_command_show::show_in`].
pub fn show_in<F: Files>(
    alloc: Global,
    files: &mut F,
    case_file: &str,
    trace_file: &str,
) -> Result<Shown, ReplayStop>
    ensures files { F.told files.new ≡ F.told files.old }
    ensures says { SaysShow (F.told files.old) case_file.now trace_file.now result }
    ensures counted { Counts (show_status result) (F.read_faults files.old) (F.read_faults files.new) }
    ensures named { IsUnread (show_unread result) (F.unread files.new) }
    ensures writes { F.write_faults files.new ≡ F.write_faults files.old }
{
    pv_command_show::show_in(alloc, files, case_file, trace_file)
}

/// [`pv_command_replay::replay_in`].
pub fn replay_in<F: Files>(
    alloc: Global,
    files: &mut F,
    case_file: &str,
    trace_file: &str,
) -> Result<Replayed, ReplayStop>
    ensures files { F.told files.new ≡ F.told files.old }
    ensures says { SaysReplay (F.told files.old) case_file.now trace_file.now result }
    ensures counted { Counts (replay_status result) (F.read_faults files.old) (F.read_faults files.new) }
    ensures named { IsUnread (replay_unread result) (F.unread files.new) }
    ensures writes { F.write_faults files.new ≡ F.write_faults files.old }
{
    pv_command_replay::replay_in(alloc, files, case_file, trace_file)
}

/// [`pv_command_recheck::recheck_in`].
pub fn recheck_in<F: Files>(
    alloc: Global,
    files: &mut F,
    case_file: &str,
    certificate_file: &str,
) -> Result<Rechecked, RecheckStop>
    ensures files { F.told files.new ≡ F.told files.old }
    ensures says { SaysRecheck (F.told files.old) case_file.now certificate_file.now result }
    ensures counted { Counts (recheck_status result) (F.read_faults files.old) (F.read_faults files.new) }
    ensures named { IsUnread (recheck_unread result) (F.unread files.new) }
    ensures writes { F.write_faults files.new ≡ F.write_faults files.old }
{
    pv_command_recheck::recheck_in(alloc, files, case_file, certificate_file)
}

/// [`pv_top::run`].
pub fn run<F: Files, S: Sink>(
    alloc: Global,
    words: &[String],
    files: &mut F,
    out: &mut S,
    kept: &mut Text,
) -> Status
    ensures promises { Promises S.call (record {
      words = map string_bytes words.now;
      status = result;
      told = F.told files.old;
      told_after = F.told files.new;
      reads = F.read_faults files.old;
      reads_after = F.read_faults files.new;
      unread_after = F.unread files.new;
      writes = F.write_faults files.old;
      writes_after = F.write_faults files.new;
      sink = S.faults out.old;
      sink_after = S.faults out.new;
      taken = S.taken out.old;
      taken_after = S.taken out.new;
      kept = kept.old;
      kept_after = kept.new;
      out = out.old;
      out_after = out.new;
    }) }
{
    pv_top::run(alloc, words, files, out, kept)
}
