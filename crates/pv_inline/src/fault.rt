//! Why calls can't be copied.

use std::alloc::AllocError;
use thiserror::Error;

/// The greatest number of edges that an automaton with copies may have.
pub const MAX_EDGES: u64 = 200_000;

/// What stands for any number of edges above [`MAX_EDGES`].
pub(crate) const BEYOND: u64 = 200_001;

const _: () = prove!(BEYOND == MAX_EDGES + 1);

/// Why calls can't be copied.
#[derive(Clone, Copy, Debug, PartialEq, Eq, Error)]
pub enum TooLarge {
    /// The automaton with copies would have more than [`MAX_EDGES`] edges.
    #[error("an automaton would have too many edges")]
    Edges,
    /// A number of a copy, a location, variable, term, deed or edge, would have more than 32 bits; or a called block by itself more than
    /// [`MAX_EDGES`] edges, which can be where blocks call each other in a circle alone.
    #[error("a number of a copy has more than 32 bits")]
    Numbers,
    /// The allocator has no memory left.
    #[error("out of memory")]
    NoMemory,
}

impl From<AllocError> for TooLarge {
    ghost use Rattle.std.specs.Prelude.{◌≡◌};
    ghost use Rattle.pv_inline.specs.declared.fault.TooLarge.TheVariants.{NoMemory};

    ghost from_gives = { λ _ fault. fault ≡ NoMemory };

    fn from(_: AllocError) -> TooLarge {
        TooLarge::NoMemory
    }
}
