//! What a check says of a verdict, taken out of its clause.
ghost use Rattle.std.specs.Prelude.{IfOk};
ghost use Rattle.pv_contracts_check.specs.Written.{DecidesAll, HasSaid};

use pv_command_check::{CheckStop, Checked};
use pv_edge::Files;
use std::alloc::Global;

/// [`pv_command_check::check_in`]: what can be decided within the limits is decided.
pub fn decides_what_it_can<F: Files>(
    alloc: Global,
    files: &mut F,
    case_file: &str,
) -> Result<Checked, CheckStop>
    ensures { IfOk result (HasSaid DecidesAll (F.told files.old) case_file.now) }
{
    pv_command_check::check_in(alloc, files, case_file)
}
