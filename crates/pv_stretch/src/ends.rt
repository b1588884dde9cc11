//! Where stretches begin, and how they end.
use pv_claims::Ending;
use pv_place::{Place, TrapKind};

/// Where a stretch begins.
#[derive(Clone, Copy)]
pub enum StretchStart<'a> {
    /// At the start, with these values of the parameters that no binding gives one, in the order of the table.
    Params(&'a [i128]),
    /// At these values of the kept cells and the parameters, in the order of the table, behind a scan that left this mark; none where
    /// no scan was before.
    Image(&'a [i128], Option<bool>),
}

/// How the scan behind the good ones ends.
#[derive(Clone, Copy, Debug, PartialEq, Eq)]
pub enum StretchEnd {
    /// It fails. Of a pattern that asks for a goal `Ending::Pattern` is that the goal is reached.
    Fails(Ending),
    /// It traps, which ends the run; but the pattern asks for a goal, and it doesn't fail.
    Stopped(TrapKind, Place),
}

/// A stretch of scans.
#[derive(Clone, Copy, Debug, PartialEq, Eq)]
pub struct Stretch {
    /// How many scans are done and don't fail, before the first that fails or isn't done.
    pub good: u64,
    /// How that one ends; none where all scans are good.
    pub ending: Option<StretchEnd>,
}
