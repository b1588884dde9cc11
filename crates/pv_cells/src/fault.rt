//! Why a project's cells aren't laid out.
ghost use Rattle.std.specs.Prelude.{◌≡◌};
ghost use Rattle.pv_cells.specs.declared.fault.CellFault.TheVariants.{NoMemory};

use std::alloc::{AllocError, AllocFailed};
use thiserror::Error;

/// Why a project's cells aren't laid out.
#[derive(Clone, Copy, PartialEq, Eq, Debug, Drop, Error)]
pub enum CellFault {
    /// The table would have more than [`pv_types::MAX_LEAVES`] cells.
    #[error("the project has too many cells")]
    TooLarge,
    /// There is no memory.
    #[error("there is no memory")]
    NoMemory,
}

impl From<AllocError> for CellFault {
    ghost from_gives = { λ _ e. e ≡ NoMemory };

    fn from(_e: AllocError) -> CellFault {
        CellFault::NoMemory
    }
}

impl<T: Drop> From<AllocFailed<T>> for CellFault {
    ghost from_gives = { λ _ e. e ≡ NoMemory };

    fn from(_e: AllocFailed<T>) -> CellFault {
        CellFault::NoMemory
    }
}
