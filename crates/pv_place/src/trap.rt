//! Traps: why a scan can't go on.

/// Why a scan ends before its time.
#[derive(Clone, Copy, PartialEq, Eq, Debug)]
pub enum TrapKind {
    /// A division by zero.
    DivideByZero,
    /// An index outside its array's bounds.
    Index,
    /// A value is read that was not written in this activation of its block.
    Unset,
}
