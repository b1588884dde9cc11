//! Laws of terms, each the contract of a function that does nothing. Their statements are those of `specs/Correct`.
ghost use Rattle.pv_terms.specs.Correct.{ConversionsHold, UnariesHold, BinariesHold, FunctionsHold, IndexesHold};

/// A term as one of another type has its value, as it lies in that type.
pub fn conversions_hold()
    ensures { ConversionsHold }
{}

/// An operator before its operand is worth what it makes of the operand's value.
pub fn unaries_hold()
    ensures { UnariesHold }
{}

/// An operator between two terms traps exactly where it divides by 0, and is else worth what it makes of their values.
pub fn binaries_hold()
    ensures { BinariesHold }
{}

/// A function is worth what it makes of its arguments' values.
pub fn functions_hold()
    ensures { FunctionsHold }
{}

/// The terms of bounds say whether an index is outside them, and which one it is.
pub fn indexes_hold()
    ensures { IndexesHold }
{}
