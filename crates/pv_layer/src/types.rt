//! What a spot has.

use pv_flow::Set;
use pv_place::{Place, TrapKind};
use smallvec::SmallVec;

/// A check: where the term of this number is true, a scan traps.
#[derive(Clone, Copy)]
pub struct Check {
    pub fails: u32,
    pub kind: TrapKind,
    pub place: Place,
}

/// A way on: the location to which it leads, what it assigns, and the number of the loop of which it starts a turn, if it does.
#[derive(Drop)]
pub struct Way {
    pub to: u32,
    pub sets: SmallVec<Set, 2>,
    pub turn: Option<u32>,
}
