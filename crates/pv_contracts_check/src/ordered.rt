//! What a check says of a verdict, taken out of its clause.
ghost use Rattle.std.specs.Prelude.{IfOk};
ghost use Rattle.pv_contracts_check.specs.Written.{OrderedBy, HasSaid};

use pv_command_check::{CheckStop, Checked};
use pv_edge::Files;
use std::alloc::Global;

/// [`pv_command_check::check_in`]: each step query before the last one is met, and that of a proved claim isn't.
pub fn steps_before_met<F: Files>(
    alloc: Global,
    files: &mut F,
    case_file: &str,
) -> Result<Checked, CheckStop>
    ensures { IfOk result (HasSaid OrderedBy (F.told files.old) case_file.now) }
{
    pv_command_check::check_in(alloc, files, case_file)
}
