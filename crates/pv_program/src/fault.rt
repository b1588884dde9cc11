//! Why a project has no program.
ghost use Rattle.std.specs.Prelude.{◌≡◌};
ghost use Rattle.pv_program.specs.declared.fault.ProgramFault.TheVariants.{NoMemory};
ghost use Rattle.pv_program.specs.Faults.{fault_of};

use pv_resolve::ResolveFault;
use std::alloc::{AllocError, AllocFailed};
use thiserror::Error;

/// Why a project has no program.
#[derive(Clone, Copy, PartialEq, Eq, Debug, Drop, Error)]
pub enum ProgramFault {
    /// More cells than a table may have, a number greater than 64 bits hold, a cell of an instance from 2^16 on, no block of a
    /// number, or a block that breaks a rule. A project that is run, whose blocks tokens spell, never meets it.
    #[error("a number is too large")]
    TooLarge,
    #[error("out of memory")]
    NoMemory,
}

impl From<ResolveFault> for ProgramFault {
    ghost from_gives = { λ fault gives. gives ≡ fault_of fault };

    fn from(fault: ResolveFault) -> ProgramFault {
        match fault {
            ResolveFault::TooLarge => ProgramFault::TooLarge,
            ResolveFault::NoMemory => ProgramFault::NoMemory,
        }
    }
}

impl From<AllocError> for ProgramFault {
    ghost from_gives = { λ _ fault. fault ≡ NoMemory };

    fn from(_error: AllocError) -> ProgramFault {
        ProgramFault::NoMemory
    }
}

impl<T: Drop> From<AllocFailed<T>> for ProgramFault {
    ghost from_gives = { λ _ fault. fault ≡ NoMemory };

    fn from(_error: AllocFailed<T>) -> ProgramFault {
        ProgramFault::NoMemory
    }
}
