//! What is wrong with a line, with a log and with a text.
ghost use Rattle.std.specs.Prelude.{◌≡◌};
ghost use Rattle.pv_log.specs.declared.fault.LratFault.TheVariants.{NoMemory};

use std::alloc::AllocError;
use thiserror::Error;

/// What is wrong with a line of a log: the first that applies, in the order id, literals, and then hint
/// by hint, and at last `NotNew`. A hint is tried with the values that the hints before it gave.
#[derive(Clone, Copy, Debug, PartialEq, Eq, Error)]
pub enum LineFault {
    /// The id isn't the next one.
    #[error("the id isn't the next one")]
    BadId,
    /// A hint is the id of no earlier clause.
    #[error("a hint names no earlier clause")]
    UnknownHint,
    /// A hint other than the last names a clause that hasn't all literals false but one without a value.
    #[error("a hint's clause isn't false but for one literal without a value")]
    NotUnit,
    /// The last hint names a clause that hasn't all literals false, or there is no hint.
    #[error("the last hint's clause isn't false")]
    LastNotFalse,
    /// A variable stands twice in the clause, or one is 0 or past the formula's last.
    #[error("a variable stands twice or is not the formula's")]
    Tautology,
    /// An earlier clause has all its literals among the line's. Only `check_new` asks for this.
    #[error("an earlier clause has all its literals among the line's")]
    NotNew,
}

/// What a log shows.
#[derive(Clone, Copy, Debug, PartialEq, Eq)]
pub enum Verdict {
    /// Each line follows and the last is empty, so no values make the formula hold.
    Accepted,
    /// Each line follows, but the last isn't empty or there is no line.
    NoEmpty,
    /// A line doesn't follow.
    Refused {
        /// The first such line, from 1.
        line: u32,
        /// What is wrong with it.
        kind: LineFault,
    },
}

/// Why a text is no line.
#[derive(Clone, Copy, Debug, PartialEq, Eq, Error)]
pub enum LratFault {
    /// The text is no line: `at` is the first byte with which no line begins so, or the text's length where
    /// some line begins so.
    #[error("no line of a proof has this byte at {at}")]
    NotLrat {
        /// The place of the byte, from 0.
        at: u64,
    },
    /// The allocator has no memory left.
    #[error("out of memory")]
    NoMemory,
}

impl From<AllocError> for LratFault {
    ghost from_gives = { λ _ e. e ≡ NoMemory };

    fn from(_e: AllocError) -> LratFault {
        LratFault::NoMemory
    }
}
