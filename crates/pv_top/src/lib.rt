//! The commands of plcv, over the files and the sink that they are handed.
//!
//! `words` are the forms of a command's words, each command stands in a crate of its own, `outcome` is what a run came to, with what is told
//! of it, and `printing` is where that goes. `specs/Promises` has the promises of `run`.
#![tactic(auto)]

ghost use Rattle.std.specs.Prelude.{map, string_bytes};
ghost use Rattle.pv_command_show.specs.Handed.{Counts, IsUnread};
ghost use Rattle.pv_top.specs.Outcomes.{status_of, unread_of};
ghost use Rattle.pv_top.specs.Calls.{Says, Leaves, LeavesWrites};
ghost use Rattle.pv_top.specs.Promises.{Promises};

pub mod laws;
mod outcome;
mod printing;
mod words;

use outcome::Outcome;
use printing::{keep, print};
use pv_command_check::check_in;
use pv_command_check::laws::files_decide_one_check;
use pv_command_recheck::laws::files_decide_one_recheck;
use pv_command_recheck::recheck_in;
pub use pv_command_show::Status;
use pv_command_show::{
    files_decide_one, files_decide_one_trace, replay_in, runs_end_in_one_way, show_in,
};
use pv_edge::{Files, Sink, Text};
use std::alloc::Global;
use words::{Command, read_words};

/// Runs the command that the words spell: reads what it names through `files`, writes the certificate of a check to the file that its case
/// names, if it names one, and offers the report or the one fault line to `out` until it is taken. The answer is the program's status.
///
/// `kept` takes evidence that a report doesn't print: once the report of a check is taken whole, the text of the certificate of its verdict,
/// whether or not the case names a file for it; once its fault line of too many gates is taken whole, the line of the chain whose circuit has
/// them. Else it stays.
pub fn run<F: Files, S: Sink>(
    alloc: Global,
    words: &[String],
    files: &mut F,
    out: &mut S,
    kept: &mut Text,
) -> Status
    ensures promises { Promises S.call (record {
      words = map string_bytes words.now;
      status = result;
      told = F.told files.old;
      told_after = F.told files.new;
      reads = F.read_faults files.old;
      reads_after = F.read_faults files.new;
      unread_after = F.unread files.new;
      writes = F.write_faults files.old;
      writes_after = F.write_faults files.new;
      sink = S.faults out.old;
      sink_after = S.faults out.new;
      taken = S.taken out.old;
      taken_after = S.taken out.new;
      kept = kept.old;
      kept_after = kept.new;
      out = out.old;
      out_after = out.new;
    }) }
{
    files_decide_one();
    files_decide_one_check();
    files_decide_one_trace();
    runs_end_in_one_way();
    files_decide_one_recheck();
    let told = outcome_of(alloc, words, files).told(alloc);
    let printed = print(out, &told);
    keep(kept, told, printed.whole);
    printed.status
}

/// What the words come to.
fn outcome_of<F: Files>(alloc: Global, words: &[String], files: &mut F) -> Outcome
    ensures says { Says (F.told files.old) (map string_bytes words.now) result }
    ensures leaves { Leaves (map string_bytes words.now) result (F.told files.old) (F.told files.new) }
    ensures counted { Counts (status_of result) (F.read_faults files.old) (F.read_faults files.new) }
    ensures named { IsUnread (unread_of result) (F.unread files.new) }
    ensures writes { LeavesWrites result (F.write_faults files.old) (F.write_faults files.new) }
{
    match read_words(words) {
        None => Outcome::NoCommand,
        Some(Command::Check { case }) => Outcome::Check(check_in(alloc, files, case)),
        Some(Command::Recheck { case, certificate }) => {
            Outcome::Recheck(recheck_in(alloc, files, case, certificate))
        }
        Some(Command::Replay { case, trace }) => {
            Outcome::Replay(replay_in(alloc, files, case, trace))
        }
        Some(Command::Show { case, trace }) => Outcome::Show(show_in(alloc, files, case, trace)),
    }
}
