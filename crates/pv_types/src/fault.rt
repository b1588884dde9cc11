//! Why declarations aren't laid out.
ghost use Rattle.std.specs.Prelude.{◌≡◌};
ghost use Rattle.pv_types.specs.declared.fault.FlattenFault.TheVariants.{NoMemory};

use std::alloc::{AllocError, AllocFailed};
use thiserror::Error;

/// Why declarations aren't laid out.
#[derive(Clone, Copy, PartialEq, Eq, Debug, Drop, Error)]
pub enum FlattenFault {
    /// They have more than [`crate::MAX_LEAVES`] leaves.
    #[error("the declarations have too many leaves")]
    TooLarge,
    /// There is no memory.
    #[error("there is no memory")]
    NoMemory,
}

impl From<AllocError> for FlattenFault {
    ghost from_gives = { λ _ e. e ≡ NoMemory };

    fn from(_e: AllocError) -> FlattenFault {
        FlattenFault::NoMemory
    }
}

impl<T: Drop> From<AllocFailed<T>> for FlattenFault {
    ghost from_gives = { λ _ e. e ≡ NoMemory };

    fn from(_e: AllocFailed<T>) -> FlattenFault {
        FlattenFault::NoMemory
    }
}
