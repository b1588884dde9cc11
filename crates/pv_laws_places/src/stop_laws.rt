//! Scans stop in sources.
ghost use Rattle.std.specs.Prelude.{◌≡◌, List, Contains};
ghost use Rattle.std.specs.List.{AllByRecursion};
ghost use Rattle.pv_tree.specs.Scopes.{SymbolTree};
ghost use Rattle.pv_mean.specs.Sources.{Source};
ghost use Rattle.pv_mean.specs.Frames.{Image, Input};
ghost use Rattle.pv_mean.specs.Scans.{scan};
ghost use Rattle.pv_mean.specs.Runs.{run_from};
ghost use Rattle.pv_laws_scans.specs.Places.{StopsIn};
ghost use Rattle.pv_laws_places.specs.Texts.{LiesInOne};
ghost use Rattle.pv_laws_places.specs.Sources.{SourceRead, AreOfTexts, texts_of, project_of};

use pv_laws_scans::stop_laws::scans_stop_at_places;

/// A law: where the project that is run is that of sources which are read, a scan is done, or it traps
/// or goes over a loop's bound at a place in one of the sources; and so does each scan of a run.
pub fn scans_stop_in_sources()
    ensures scans { (sources : List SourceRead) (symbols : List SymbolTree) (source : Source)
        (image : Image) (input : Input)
        → AreOfTexts 0 sources → source.project ≡ project_of sources symbols
        → Contains source.project.blocks source.entry
        → StopsIn (LiesInOne (texts_of sources)) (scan source image input).end }
    ensures runs { (sources : List SourceRead) (symbols : List SymbolTree) (source : Source)
        (image : Image) (inputs : List Input)
        → AreOfTexts 0 sources → source.project ≡ project_of sources symbols
        → Contains source.project.blocks source.entry
        → AllByRecursion (λ s. StopsIn (LiesInOne (texts_of sources)) s.end)
        (run_from source image inputs) }
{
    scans_stop_at_places();
}
