//! Why something has no value.

use pv_place::{Place, TrapKind};

/// A trap, with its place.
#[derive(Clone, Copy, PartialEq, Eq, Debug)]
pub struct Trap {
    pub kind: TrapKind,
    pub place: Place,
}
