//! Where scans stop.
ghost use Rattle.std.specs.Prelude.{ℕ};
ghost use Rattle.pv_mean.specs.Sources.{Source};
ghost use Rattle.pv_mean.specs.Frames.{Image, Input};
ghost use Rattle.pv_mean.specs.Scans.{Visible, scan_from, scan};
ghost use Rattle.pv_mean.specs.Cells.{most_calls};
ghost use Rattle.pv_laws_scans.specs.Places.{IsPlaceWithin, StopsIn};

/// A scan is done, or stops at a place of the entered block's statements or instructions, or of those of
/// a block to which calls lead from it, of which no more than seven stand behind one another.
pub fn scans_stop_at_places()
    ensures { (source : Source) (image : Image) (input : Input)
        → StopsIn (IsPlaceWithin source.project most_calls source.entry) (scan source image input).end }
{}
