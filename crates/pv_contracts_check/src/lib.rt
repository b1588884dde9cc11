//! Contract tests of `pv_command_check`.
//!
//! The public call whose clauses are no equation of what it answers stands here once more, with the library's clauses, by the call itself. An
//! edit of `must-fail` gives a wrong answer in its place.
#![tactic(auto)]

ghost use Rattle.pv_command_check.specs.Checks.{SaysCheck, check_status, check_unread};
ghost use Rattle.pv_command_check.specs.Files.{CountsWrites, LeavesFiles};
ghost use Rattle.pv_command_check.specs.Handed.{Counts, IsUnread};

mod decided;
mod ordered;
mod shown;

pub use decided::decides_what_it_can;
pub use ordered::steps_before_met;
use pv_command_check::{CheckStop, Checked};
use pv_edge::{Files, Text};
pub use shown::first_to_fail;
use std::alloc::Global;

/// [`pv_command_check::check_in`].
pub fn check_in<F: Files>(
    alloc: Global,
    files: &mut F,
    case_file: &str,
) -> Result<Checked, CheckStop>
    ensures says { SaysCheck (F.told files.old) case_file.now result }
    ensures files { LeavesFiles case_file.now result (F.told files.old) (F.told files.new) }
    ensures counted { Counts (check_status result) (F.read_faults files.old) (F.read_faults files.new) }
    ensures named { IsUnread (check_unread result) (F.unread files.new) }
    ensures writes { CountsWrites (check_status result) (F.write_faults files.old) (F.write_faults files.new) }
{
    pv_command_check::check_in(alloc, files, case_file)
}
