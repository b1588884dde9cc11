//! Why a case doesn't fit its project.
ghost use Rattle.std.specs.Prelude.{◌≡◌};

use std::alloc::{AllocError, AllocFailed};
use thiserror::Error;

/// Why there is no block to enter.
#[derive(Clone, Copy, PartialEq, Eq, Debug, Drop, Error)]
pub enum EntryFault {
    /// No function block and no organization block has the entry's name, or the entry is no name.
    #[error("the entry names no block that may be entered")]
    NoEntry,
    #[error("out of memory")]
    NoMemory,
}

impl From<AllocError> for EntryFault {
    ghost use Rattle.pv_case_fit.specs.declared.fault.EntryFault.TheVariants.{NoMemory};

    ghost from_gives = { λ _ fault. fault ≡ NoMemory };

    fn from(_error: AllocError) -> EntryFault {
        EntryFault::NoMemory
    }
}

/// Why a case says nothing of the inputs.
#[derive(Debug, Drop, Error)]
pub enum InputFault {
    /// A path that is none of an input, of a parameter or else of a bound input.
    #[error("{field} is no input")]
    NotAnInput { field: String },
    /// A bound input's path whose value is outside of its type, or an earlier one is for the same input.
    #[error("{field} isn't bound to one value of its type")]
    BoundRange { field: String },
    #[error("out of memory")]
    NoMemory,
}

impl From<AllocError> for InputFault {
    ghost use Rattle.pv_case_fit.specs.declared.fault.InputFault.TheVariants.{NoMemory};

    ghost from_gives = { λ _ fault. fault ≡ NoMemory };

    fn from(_error: AllocError) -> InputFault {
        InputFault::NoMemory
    }
}

impl<T: Drop> From<AllocFailed<T>> for InputFault {
    ghost use Rattle.pv_case_fit.specs.declared.fault.InputFault.TheVariants.{NoMemory};

    ghost from_gives = { λ _ fault. fault ≡ NoMemory };

    fn from(_error: AllocFailed<T>) -> InputFault {
        InputFault::NoMemory
    }
}
