//! Why something has no nodes.
ghost use Rattle.std.specs.Prelude.{◌≡◌};
ghost use Rattle.pv_resolve.specs.declared.fault.ResolveFault.TheVariants.{NoMemory};

use std::alloc::{AllocError, AllocFailed};
use thiserror::Error;

/// Why names aren't resolved.
#[derive(Clone, Copy, PartialEq, Eq, Debug, Drop, Error)]
pub enum ResolveFault {
    /// There are more cells than a table may have, or a number is greater than 64 bits hold. Where a block has room what fits
    /// meets it nowhere.
    #[error("a number is too large")]
    TooLarge,
    #[error("out of memory")]
    NoMemory,
}

impl From<AllocError> for ResolveFault {
    ghost from_gives = { λ _ fault. fault ≡ NoMemory };

    fn from(_error: AllocError) -> ResolveFault {
        ResolveFault::NoMemory
    }
}

impl<T: Drop> From<AllocFailed<T>> for ResolveFault {
    ghost from_gives = { λ _ fault. fault ≡ NoMemory };

    fn from(_error: AllocFailed<T>) -> ResolveFault {
        ResolveFault::NoMemory
    }
}
