//! The stage of a check that writes its certificate.
ghost use Rattle.std.specs.Prelude.{◌≡◌, string_bytes, option_map};
ghost use Rattle.pv_command_check.specs.Files.{CountsWrites};
ghost use Rattle.pv_command_check.specs.Made.{LeavesBy, status_by};

use crate::stop::CheckStop;
use pv_edge::{FileFault, Files};
use std::alloc::Global;

/// Makes the file of this name hold the bytes, if there is a name.
pub(crate) fn written<F: Files>(
    alloc: Global,
    files: &mut F,
    name: &Option<String>,
    bytes: &[u8],
) -> Result<(), CheckStop>
    ensures files { LeavesBy (option_map string_bytes name.now) bytes.now result (F.told files.old) (F.told files.new) }
    ensures reads { F.read_faults files.new ≡ F.read_faults files.old }
    ensures writes { CountsWrites (status_by result) (F.write_faults files.old) (F.write_faults files.new) }
{
    let Some(name) = name else {
        return Ok(());
    };
    match files.write(alloc, name.as_str(), bytes) {
        Ok(()) => Ok(()),
        Err(FileFault::Failed) => Err(CheckStop::Unwritten),
        Err(FileFault::NoMemory) => Err(CheckStop::NoMemory),
    }
}
