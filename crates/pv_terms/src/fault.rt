//! Why a term isn't put into a table.
ghost use Rattle.std.specs.Prelude.{◌≡◌};
ghost use Rattle.pv_terms.specs.declared.fault.TermFault.TheVariants.{NoMemory};

use std::alloc::{AllocError, AllocFailed};
use thiserror::Error;

/// Why a term isn't put, or what is read and written by terms.
#[derive(Clone, Copy, PartialEq, Eq, Debug, Drop, Error)]
pub enum TermFault {
    /// A number is past the bits that hold it: of a node, of a variable, between the bounds of an array or of a bit past 32, an index
    /// past 128; or more than four bytes in a row are to be one value.
    #[error("a number is too large")]
    TooLarge,
    #[error("out of memory")]
    NoMemory,
}

impl From<AllocError> for TermFault {
    ghost from_gives = { λ _ fault. fault ≡ NoMemory };

    fn from(_error: AllocError) -> TermFault {
        TermFault::NoMemory
    }
}

impl<T: Drop> From<AllocFailed<T>> for TermFault {
    ghost from_gives = { λ _ fault. fault ≡ NoMemory };

    fn from(_error: AllocFailed<T>) -> TermFault {
        TermFault::NoMemory
    }
}
