//! Why a region isn't made, or doesn't take a clause or a lemma.
ghost use Rattle.std.specs.Prelude.{◌≡◌};

use std::alloc::AllocError;
use thiserror::Error;

/// Why no region was made.
#[derive(Clone, Copy, Debug, PartialEq, Eq, Error)]
pub enum MakeFault {
    /// The variables alone take more words than there are.
    #[error("the variables take {need} words, more than there are")]
    Full {
        /// Two words for each variable.
        need: u64,
    },
    /// The allocator has no memory left.
    #[error("out of memory")]
    NoMemory,
}

impl From<AllocError> for MakeFault {
    ghost use Rattle.std.specs.Prelude.{◌≡◌};
    ghost use Rattle.pv_region.specs.declared.fault.MakeFault.TheVariants.{NoMemory};

    ghost from_gives = { λ _ fault. fault ≡ NoMemory };

    fn from(_: AllocError) -> MakeFault {
        MakeFault::NoMemory
    }
}

/// There is no room for a clause or a lemma.
#[derive(Clone, Copy, Debug, PartialEq, Eq, Error)]
#[error("the region is full, and {need} words would be needed")]
pub struct Full {
    /// The words that would be in use with it.
    pub need: u64,
}
