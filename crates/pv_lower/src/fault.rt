//! Why something has no terms.
ghost use Rattle.std.specs.Prelude.{◌≡◌};
ghost use Rattle.pv_lower.specs.declared.fault.LowerFault.TheVariants.{NoMemory};

use pv_resolve::ResolveFault;
use pv_terms::TermFault;
use std::alloc::{AllocError, AllocFailed};
use thiserror::Error;

/// Why an expression isn't lowered.
#[derive(Clone, Copy, PartialEq, Eq, Debug, Drop, Error)]
pub enum LowerFault {
    /// What `pv_resolve` refuses as too large, which what fits meets nowhere where a block has room; or a number is past the bits that
    /// hold it: of a node, of a variable, between the bounds of an array, of a bit or of the places of a shift past 32, a literal or an
    /// index past 128; or a brief cell is past those of the block.
    #[error("a number is too large")]
    TooLarge,
    #[error("out of memory")]
    NoMemory,
}

impl From<ResolveFault> for LowerFault {
    ghost use Rattle.std.specs.Prelude.{◌≡◌};
    ghost use Rattle.pv_lower.specs.Faults.{of_resolve};

    ghost from_gives = { λ cause fault. fault ≡ of_resolve cause };

    fn from(cause: ResolveFault) -> LowerFault {
        match cause {
            ResolveFault::TooLarge => LowerFault::TooLarge,
            ResolveFault::NoMemory => LowerFault::NoMemory,
        }
    }
}

impl From<TermFault> for LowerFault {
    ghost use Rattle.std.specs.Prelude.{◌≡◌};
    ghost use Rattle.pv_lower.specs.Faults.{of_term};

    ghost from_gives = { λ cause fault. fault ≡ of_term cause };

    fn from(cause: TermFault) -> LowerFault {
        match cause {
            TermFault::TooLarge => LowerFault::TooLarge,
            TermFault::NoMemory => LowerFault::NoMemory,
        }
    }
}

impl From<AllocError> for LowerFault {
    ghost from_gives = { λ _ fault. fault ≡ NoMemory };

    fn from(_error: AllocError) -> LowerFault {
        LowerFault::NoMemory
    }
}

impl<T: Drop> From<AllocFailed<T>> for LowerFault {
    ghost from_gives = { λ _ fault. fault ≡ NoMemory };

    fn from(_error: AllocFailed<T>) -> LowerFault {
        LowerFault::NoMemory
    }
}
