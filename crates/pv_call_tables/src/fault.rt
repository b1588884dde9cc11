//! Why a table isn't made.

use std::alloc::{AllocError, AllocFailed};
use thiserror::Error;

/// Why a table isn't made.
#[derive(Clone, Copy, Debug, PartialEq, Eq, Error)]
pub enum Wanting {
    /// A number in it would have more than 32 bits.
    #[error("a number has more than 32 bits")]
    Numbers,
    /// The allocator has no memory left.
    #[error("out of memory")]
    NoMemory,
}

impl From<AllocError> for Wanting {
    ghost use Rattle.std.specs.Prelude.{◌≡◌};
    ghost use Rattle.pv_call_tables.specs.declared.fault.Wanting.TheVariants.{NoMemory};

    ghost from_gives = { λ _ fault. fault ≡ NoMemory };

    fn from(_: AllocError) -> Wanting {
        Wanting::NoMemory
    }
}

impl<T: Drop> From<AllocFailed<T>> for Wanting {
    ghost use Rattle.std.specs.Prelude.{◌≡◌};
    ghost use Rattle.pv_call_tables.specs.declared.fault.Wanting.TheVariants.{NoMemory};

    ghost from_gives = { λ _ fault. fault ≡ NoMemory };

    fn from(_failed: AllocFailed<T>) -> Wanting {
        Wanting::NoMemory
    }
}
