//! How a scan ends.
ghost use Rattle.std.specs.Prelude.{◌≡◌, List, ℤ};
ghost use Rattle.pv_run.specs.Ends.{stop_end};
ghost use Rattle.pv_replay.specs.Ends.{scan_end};

use pv_place::{Place, TrapKind};
use pv_run::Stop;

/// How a scan ends.
#[derive(Clone, Copy, PartialEq, Eq, Debug)]
pub enum ScanEnd {
    /// The entered block has run to its end.
    Done,
    /// What stands at this place can't go on: an operator, an index by its `[`, an operand or a call by its first token.
    Trap(TrapKind, Place),
    /// An entry into the loop at this place would take one turn more than the bound.
    Over(Place),
}

impl ScanEnd {
    /// The end of a scan that stops.
    pub(crate) fn of(stop: Stop) -> ScanEnd
        ensures { (values : List ℤ) → scan_end result values ≡ stop_end stop }
    {
        match stop {
            Stop::Trap(trap) => ScanEnd::Trap(trap.kind, trap.place),
            Stop::Over(place) => ScanEnd::Over(place),
        }
    }
}
