//! How the program ends.

/// How the program ends.
///
/// | value | meaning |
/// |---|---|
/// | 0 | the requirement holds, or what is to be reached is |
/// | 1 | it doesn't hold, or isn't reached |
/// | 2 | that isn't decided, as in a replay whose scan goes over a loop's bound |
/// | 3 | a source is refused, or a count passes its limit |
/// | 4 | the case is refused |
/// | 5 | the words are refused |
/// | 6 | a file can't be read |
/// | 7 | the report can't be written |
/// | 8 | a trace or a certificate is refused |
/// | 9 | want of memory |
pub type Status = u8;

/// The requirement holds, or what is to be reached is.
pub const HOLDS: Status = 0;

pub const HOLDS_NOT: Status = 1;

pub const UNDECIDED: Status = 2;

/// A source is refused, or a count passes its limit.
pub const SOURCE_REFUSED: Status = 3;

pub const CASE_REFUSED: Status = 4;

pub const WORDS_REFUSED: Status = 5;

pub const READ_FAULT: Status = 6;

pub const WRITE_FAULT: Status = 7;

/// A trace or a certificate is refused.
pub const TEXT_REFUSED: Status = 8;

pub const NO_MEMORY: Status = 9;
