//! Why a text isn't read.
ghost use Rattle.std.specs.Prelude.{◌≡◌};
ghost use Rattle.pv_parse.specs.declared.fault.ParseFault.TheVariants.{NoMemory};

use pv_place::Place;
use std::alloc::AllocError;
use thiserror::Error;

/// Why tokens aren't read, of which all are within the profile.
#[derive(Clone, Copy, PartialEq, Eq, Debug)]
pub enum ReadFault {
    /// No tree reads. The number is that of the first token such that no well-formed text begins with the tokens up to it and
    /// with it, counted from 0; where the text ends too early, it is the number of tokens.
    Syntax(usize),
    /// The one tree that reads nests deeper than 64 levels. The place is the least at which a part begins that has 64 parts
    /// above it.
    Deep(Place),
}

/// Why a text isn't read. A word outside the profile comes before all else, and a fault of syntax before nesting.
#[derive(Clone, Copy, PartialEq, Eq, Debug, Drop, Error)]
pub enum ParseFault {
    /// A word outside the profile stands in the text: the first one, with its number of bytes.
    #[error("a word that is outside the profile")]
    Outside { place: Place, len: u32 },
    /// No tree reads. The place is that of the first token such that no well-formed text begins with the tokens up to it and
    /// with it; where the text ends too early, that of its end.
    #[error("the grammar doesn't allow this token here")]
    Syntax { place: Place },
    /// The tree nests deeper than 64 levels: statements, expressions (one in parentheses is one) and types inside each other.
    /// The place is the least first token of a part that has 64 parts above it.
    #[error("statements, expressions or types nest deeper than 64 levels")]
    Deep { place: Place },
    #[error("out of memory")]
    NoMemory,
}

impl From<AllocError> for ParseFault {
    ghost from_gives = { λ _ fault. fault ≡ NoMemory };

    fn from(_error: AllocError) -> ParseFault {
        ParseFault::NoMemory
    }
}
