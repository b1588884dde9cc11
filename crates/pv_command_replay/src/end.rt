//! How a replay ends.
use pv_place::{Place, TrapKind};

/// Why a scan fails that isn't over the bound of a loop.
#[derive(Clone, Copy, Debug, PartialEq, Eq)]
pub enum Cause {
    /// The scan is done, and the requirement doesn't hold at it.
    Pattern,
    /// It traps there.
    Trap(TrapKind, Place),
}

/// How a replay ends. Scans are numbered from 1.
#[derive(Clone, Copy, Debug, PartialEq, Eq)]
pub enum End {
    /// So many scans are done, and the requirement holds at each.
    Kept {
        scans: u64,
    },
    /// The scan of this number fails, none before it.
    Broken {
        scan: u64,
        cause: Cause,
    },
    /// In the scan of this number an entry into the loop there would take one turn too many; none before it fails.
    Over {
        scan: u64,
        place: Place,
    },
    /// At the end of the scan of this number the goal is reached, at none before.
    Reached {
        scan: u64,
    },
    /// So many scans are done, and the goal is reached at none; the trap, if one ended the run.
    NotReached {
        scans: u64,
        trap: Option<(TrapKind, Place)>,
    },
}
