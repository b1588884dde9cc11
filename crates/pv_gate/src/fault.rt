//! Why a gate was not made.

ghost use Rattle.std.specs.Prelude.{◌≡◌};
ghost use Rattle.pv_gate.specs.declared.fault.GateFault.TheVariants.{NoMemory};

use std::alloc::AllocError;
use thiserror::Error;

/// Why a call of `Gates` made no node. The gates are as they were before it.
#[derive(Clone, Copy, Debug, PartialEq, Eq, Error)]
pub enum GateFault {
    /// The call needs a new gate, and there are as many as the limit allows.
    #[error("the circuit has as many gates as its limit allows")]
    Limit,
    /// Memory ran out.
    #[error("out of memory")]
    NoMemory,
}

impl From<AllocError> for GateFault {
    ghost from_gives = { λ _ fault. fault ≡ NoMemory };

    fn from(_: AllocError) -> GateFault {
        GateFault::NoMemory
    }
}
