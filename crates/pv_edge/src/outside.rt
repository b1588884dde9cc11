//! What the program asks of its surroundings: files by name, and a sink for its report.
ghost use Rattle.std.specs.Prelude.{◌≡◌, ◌≤◌, ◌<◌, ℕ, List, Option, Result, IfOk, IfSome, IsErr, IsErrOf, OnOk, OnErr, Some, None, length, take};
ghost use Rattle.pv_edge.specs.Faults.{HasRisen, last_count};
ghost use Rattle.pv_edge.specs.Files.{FileMap, Puts, PutsPart, Changes};
ghost use Rattle.pv_edge.specs.Sink.{Takes};

use std::alloc::{AllocError, Global};
use thiserror::Error;

/// Why a call on files gave up.
#[derive(Clone, Copy, Debug, PartialEq, Eq, Error)]
pub enum FileFault {
    /// The file is missing, or the device failed.
    #[error("the file could not be read or written")]
    Failed,
    /// There was no memory left. Nothing changed.
    #[error("out of memory")]
    NoMemory,
}

impl From<AllocError> for FileFault {
    ghost use Rattle.pv_edge.specs.declared.outside.FileFault.TheVariants.{NoMemory};

    ghost from_gives = { λ _ fault. fault ≡ NoMemory };

    fn from(_error: AllocError) -> FileFault {
        FileFault::NoMemory
    }
}

/// Why a call on a sink gave up.
#[derive(Clone, Copy, Debug, PartialEq, Eq, Error)]
pub enum SinkFault {
    /// The device failed. It took nothing.
    #[error("the output could not be written")]
    Failed,
    /// There was no memory left. Nothing changed.
    #[error("out of memory")]
    NoMemory,
}

impl From<AllocError> for SinkFault {
    ghost use Rattle.pv_edge.specs.declared.outside.SinkFault.TheVariants.{NoMemory};

    ghost from_gives = { λ _ fault. fault ≡ NoMemory };

    fn from(_error: AllocError) -> SinkFault {
        SinkFault::NoMemory
    }
}

/// Files by name. A name is a text; what it means is left to the implementation.
///
/// The counts of faults are `u64`s that stay at their last value.
pub trait Files {
    /// What each name holds, where it is told.
    ghost told: { Self → Option FileMap };

    /// How many reads failed so far.
    ghost read_faults: { Self → ℕ };

    /// The name of the last read that failed, where it is told.
    ghost unread: { Self → Option (List ℕ) };

    /// How many writes failed so far.
    ghost write_faults: { Self → ℕ };

    /// The bytes of a file.
    fn read(&mut self, alloc: Global, name: &str) -> Result<Vec<u8>, FileFault>
        ensures unchanged { told self.new ≡ told self.old }
        ensures held { IfOk result (λ bytes.
            IfSome (told self.old) (λ files. files name.now ≡ Some bytes.items)) }
        ensures missing { IfSome (told self.old) (λ files. files name.now ≡ None → IsErr result) }
        ensures failed { IsErrOf result FileFault.Failed → HasRisen (read_faults self.old) (read_faults self.new) }
        ensures no_memory { IsErrOf result FileFault.NoMemory → read_faults self.new ≡ read_faults self.old }
        ensures never_falls { read_faults self.old ≤ read_faults self.new }
        ensures counted { read_faults self.new ≤ last_count }
        ensures only_faults { OnOk result (read_faults self.new ≡ read_faults self.old) }
        ensures named { IsErrOf result FileFault.Failed → IfSome (unread self.new) (λ unread. unread ≡ name.now) }
        ensures only_named { ¬ IsErrOf result FileFault.Failed → unread self.new ≡ unread self.old }
        ensures other_count { write_faults self.new ≡ write_faults self.old };

    /// Makes a file hold these bytes, whether or not it was there.
    fn write(&mut self, alloc: Global, name: &str, bytes: &[u8]) -> Result<(), FileFault>
        ensures ok { OnOk result (Changes (Puts name.now bytes.now) (told self.old) (told self.new)) }
        ensures left { IsErrOf result FileFault.Failed → Changes (PutsPart name.now bytes.now) (told self.old) (told self.new) }
        ensures failed { IsErrOf result FileFault.Failed → HasRisen (write_faults self.old) (write_faults self.new) }
        ensures no_memory { IsErrOf result FileFault.NoMemory → told self.new ≡ told self.old }
        ensures no_memory_count { IsErrOf result FileFault.NoMemory → write_faults self.new ≡ write_faults self.old }
        ensures never_falls { write_faults self.old ≤ write_faults self.new }
        ensures counted { write_faults self.new ≤ last_count }
        ensures only_faults { OnOk result (write_faults self.new ≡ write_faults self.old) }
        ensures other_name { unread self.new ≡ unread self.old }
        ensures other_count { read_faults self.new ≡ read_faults self.old };
}

/// What takes the bytes of a report, piece by piece.
///
/// The count of faults is a `u64` that stays at its last value.
pub trait Sink {
    ghost use Rattle.pv_edge.specs.declared.outside.SinkFault.{SinkFault};

    /// The bytes taken so far, where they are told.
    ghost taken: { Self → Option (List ℕ) };

    /// How many calls failed or took nothing of what there was.
    ghost faults: { Self → ℕ };

    /// What one call does: the bytes that it is offered, its answer, and the sink before and behind it.
    ghost call: { List ℕ → Result ℕ SinkFault → Self → Self → Type 0 };

    /// Takes a prefix of the bytes, and answers its length. To take nothing of what there is counts
    /// as a fault; where there is nothing, the answer is 0 and no fault.
    fn write(&mut self, bytes: &[u8]) -> Result<usize, SinkFault>
        ensures called { call bytes.now result self.old self.new }
        ensures within { IfOk result (λ n. n ≤ length bytes.now) }
        ensures ok { IfOk result (λ n. Takes (take n bytes.now) (taken self.old) (taken self.new)) }
        ensures err { OnErr result (taken self.new ≡ taken self.old) }
        ensures stalled { IfOk result (λ n. n ≡ 0 → 0 < length bytes.now → HasRisen (faults self.old) (faults self.new)) }
        ensures failed { IsErrOf result SinkFault.Failed → HasRisen (faults self.old) (faults self.new) }
        ensures no_memory { IsErrOf result SinkFault.NoMemory → faults self.new ≡ faults self.old }
        ensures never_falls { faults self.old ≤ faults self.new }
        ensures counted { faults self.new ≤ last_count }
        ensures only_faults { IfOk result (λ n. (n ≡ 0 → length bytes.now ≡ 0)
            → faults self.new ≡ faults self.old) };
}
