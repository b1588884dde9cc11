//! How the last scan of a trace ends.
ghost use Rattle.std.specs.Prelude.{◌≡◌, Some};
ghost use Rattle.pv_valid.specs.Validity.{ending_in};
ghost use Rattle.pv_evidence.specs.Endings.{told_by, BeginsAt, ReplaysOnce};

use pv_claims::{Ending, Trace};
use pv_stretch::{Stretch, StretchEnd, StretchStart};
use pv_valid::Judged;

/// How the scan that ends a stretch ends.
fn told_by(stretch: Stretch) -> Option<Ending>
    ensures { result ≡ told_by stretch.ending }
{
    match stretch.ending {
        Some(StretchEnd::Fails(ending)) => Some(ending),
        Some(StretchEnd::Stopped(kind, place)) => Some(Ending::Trap(kind, place)),
        None => None,
    }
}

/// Where a trace begins.
fn start_of(trace: &Trace) -> StretchStart<'_>
    ensures { BeginsAt trace.now trace.now.image result }
{
    match &trace.image {
        None => StretchStart::Params(trace.params.as_slice()),
        Some(image) => StretchStart::Image(image.as_slice(), trace.prev),
    }
}

/// How the last scan of a trace ends that the case replays.
pub(crate) fn ending_of<J: Judged>(case: &mut J, trace: &Trace) -> Option<Ending>
    requires replays { ReplaysOnce (J.case case.old) trace.now }
    ensures told { result ≡ ending_in (J.case case.old) (Some trace.now) }
    ensures kept { J.case case.new ≡ J.case case.old }
{
    told_by(case.stretch(start_of(trace), trace.inputs.as_slice()))
}
