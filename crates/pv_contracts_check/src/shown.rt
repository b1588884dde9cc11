//! What a check says of a verdict, taken out of its clause.
ghost use Rattle.std.specs.Prelude.{IfOk};
ghost use Rattle.pv_contracts_check.specs.Written.{ShownBy, HasSaid};

use pv_command_check::{CheckStop, Checked};
use pv_edge::Files;
use std::alloc::Global;

/// [`pv_command_check::check_in`]: of a claim of a scan, the run that is told fails first there, and no run before.
pub fn first_to_fail<F: Files>(
    alloc: Global,
    files: &mut F,
    case_file: &str,
) -> Result<Checked, CheckStop>
    ensures { IfOk result (HasSaid ShownBy (F.told files.old) case_file.now) }
{
    pv_command_check::check_in(alloc, files, case_file)
}
