//! Where the reading of a part of a certificate stops.
ghost use Rattle.std.specs.Prelude.{◌≡◌};
ghost use Rattle.pv_claims.specs.declared.stop.Stop.TheVariants.{NoMemory};

use std::alloc::AllocError;
use thiserror::Error;

/// Why a part of a certificate wasn't read.
#[derive(Clone, Copy, Debug, PartialEq, Eq, Error)]
pub enum Stop {
    /// With the line at which this many bytes are left, no such part goes on.
    #[error("no certificate goes on where {0} bytes are left")]
    Left(usize),
    /// The allocator has no memory left.
    #[error("out of memory")]
    NoMemory,
}

impl From<AllocError> for Stop {
    ghost from_gives = { λ _ e. e ≡ NoMemory };

    fn from(_e: AllocError) -> Stop {
        Stop::NoMemory
    }
}
