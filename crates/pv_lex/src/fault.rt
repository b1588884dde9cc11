//! Why a text has no tokens.
ghost use Rattle.std.specs.Prelude.{◌≡◌};
ghost use Rattle.pv_lex.specs.declared.fault.LexFault.TheVariants.{NoMemory};

use pv_place::Place;
use std::alloc::{AllocError, AllocFailed};
use thiserror::Error;

/// What stands where no token begins.
#[derive(Clone, Copy, PartialEq, Eq, Debug, Drop)]
pub enum FaultKind {
    /// A byte that begins no token.
    BadByte,
    /// A comment or an attribute that isn't closed.
    OpenComment,
    /// A quote that isn't closed on its line.
    OpenQuote,
    /// A number, or a number in an address, of more than 64 bits.
    NumberTooWide,
}

/// Why a text has no tokens.
#[derive(Clone, Copy, PartialEq, Eq, Debug, Drop, Error)]
pub enum LexFault {
    /// No token and no dropped text begins here.
    #[error("no token begins here")]
    NoToken { kind: FaultKind, place: Place },
    /// There is no memory.
    #[error("there is no memory")]
    NoMemory,
}

impl From<AllocError> for LexFault {
    ghost from_gives = { λ _ e. e ≡ NoMemory };

    fn from(_e: AllocError) -> LexFault {
        LexFault::NoMemory
    }
}

impl<T: Drop> From<AllocFailed<T>> for LexFault {
    ghost from_gives = { λ _ e. e ≡ NoMemory };

    fn from(_e: AllocFailed<T>) -> LexFault {
        LexFault::NoMemory
    }
}
