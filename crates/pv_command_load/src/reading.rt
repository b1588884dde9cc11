//! Reading a file, the first step of a stage.
ghost use Rattle.std.specs.Prelude.{◌≡◌, IfOk, IfErr, MatchResult, string_bytes};
ghost use Rattle.pv_command_load.specs.Held.{Holds, Counts, IsUnread};
ghost use Rattle.pv_command_load.specs.Refusals.{read_line};
ghost use Rattle.pv_command_load.specs.Stops.{StopsRead, read_status, read_unread};
ghost use Rattle.pv_command_load.specs.declared.reading.ReadStop.TheVariants.{NoMemory};

use pv_edge::{FileFault, Files};
use std::alloc::{AllocError, Global};
use thiserror::Error;

/// Why a file isn't read.
#[derive(Debug, Drop, Error)]
pub enum ReadStop {
    /// It can't be read.
    #[error("{file} can't be read")]
    Unread { file: String },
    #[error("out of memory")]
    NoMemory,
}

impl From<AllocError> for ReadStop {
    ghost from_gives = { λ _ stop. stop ≡ NoMemory };

    fn from(_error: AllocError) -> ReadStop {
        ReadStop::NoMemory
    }
}

/// The bytes of a file.
pub fn read<F: Files>(alloc: Global, files: &mut F, name: &str) -> Result<Vec<u8>, ReadStop>
    ensures files { F.told files.new ≡ F.told files.old }
    ensures held { IfOk result (λ bytes. Holds (F.told files.old) name.now bytes.items) }
    ensures stopped { IfErr result (StopsRead name.now) }
    ensures counted { MatchResult result
        (λ bytes. F.read_faults files.new ≡ F.read_faults files.old)
        (λ stop. Counts (read_status stop) (F.read_faults files.old) (F.read_faults files.new)) }
    ensures named { IfErr result (λ stop. IsUnread (read_unread stop) (F.unread files.new)) }
    ensures writes { F.write_faults files.new ≡ F.write_faults files.old }
{
    match files.read(alloc, name) {
        Ok(bytes) => Ok(bytes),
        Err(FileFault::Failed) => {
            let file = String::from_str(alloc, name)?;
            Err(ReadStop::Unread { file })
        }
        Err(FileFault::NoMemory) => Err(ReadStop::NoMemory),
    }
}

/// The fault line of a file that can't be read.
pub fn read_line(alloc: Global, file: &String) -> Result<String, AllocError>
    ensures { IfOk result (λ text. string_bytes text ≡ read_line (string_bytes file.now)) }
{
    format!(in alloc; "plcv: read {file}\n")
}
