//! What stops a scan.

use pv_place::{Place, TrapKind};

/// A check: the scan traps at the place where the term of this number is true.
#[derive(Clone, Copy)]
pub struct Check {
    pub term: u32,
    pub kind: TrapKind,
    pub place: Place,
}
