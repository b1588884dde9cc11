//! Why an automaton isn't unrolled.

use std::alloc::AllocError;
use thiserror::Error;

/// The greatest number of edges that an unrolled automaton may have.
pub const MAX_EDGES: u64 = 200_000;

/// The greatest number of copies of locations of which all have numbers in 32 bits, traps included. So many have more edges than may be,
/// unless there are as many loops.
pub const MAX_COPIES: u64 = 4_000_000_000;

/// Why an automaton isn't unrolled.
#[derive(Clone, Copy, Debug, PartialEq, Eq, Error)]
pub enum TooLarge {
    /// It would have so many edges, more than [`MAX_EDGES`]. Counting stops at the greatest number of 64 bits.
    #[error("an automaton would have {0} edges")]
    Edges(u64),
    /// It would have no more edges than may be, but more than [`MAX_COPIES`] copies of locations.
    #[error("an automaton would have more than 4000000000 copies of locations")]
    Copies,
    /// The allocator has no memory left.
    #[error("out of memory")]
    NoMemory,
}

impl From<AllocError> for TooLarge {
    ghost use Rattle.std.specs.Prelude.{◌≡◌};
    ghost use Rattle.pv_unroll.specs.declared.fault.TooLarge.TheVariants.{NoMemory};

    ghost from_gives = { λ _ fault. fault ≡ NoMemory };

    fn from(_: AllocError) -> TooLarge {
        TooLarge::NoMemory
    }
}
