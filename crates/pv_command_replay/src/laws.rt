//! Laws of the definitions, each the contract of a function that does nothing.
ghost use Rattle.std.specs.Prelude.{ℕ, List, Option};
ghost use Rattle.pv_edge.specs.Files.{FileMap};
ghost use Rattle.pv_mean.specs.Sources.{Source};
ghost use Rattle.pv_mean.specs.Frames.{Input, Params};
ghost use Rattle.pv_pattern.specs.Patterns.{Pattern};
ghost use Rattle.pv_place.specs.declared.place.Place.{Place};
ghost use Rattle.pv_command_load.specs.Positions.{FileText};
ghost use Rattle.pv_command_load.specs.Subjects.{SubjectData};
ghost use Rattle.pv_command_replay.specs.Correct.{RunsEndInOneWay, EndsLie, FilesDecideOneTrace, PlaceHasOneText};

use pv_laws_places::stop_laws::scans_stop_in_sources;

/// Each run ends in one way.
pub fn runs_end_in_one_way()
    ensures { (source : Source) (p : Pattern) (params : Params) (inputs : List Input)
        → RunsEndInOneWay source p params inputs }
{}

/// Where the files hold what a command works on, each place of a run's end lies in one of the sources.
pub fn ends_lie_in_sources()
    ensures { (told : Option FileMap) (file : List ℕ) (s : SubjectData) → EndsLie told file s }
{
    scans_stop_in_sources();
}

/// Where the files tell what they hold, a trace's file holds one trace of the source at most, has one line at fault at most, and not both.
pub fn files_decide_one_trace()
    ensures { (files : FileMap) (file : List ℕ) (source : Source)
        → FilesDecideOneTrace files file source }
{}

/// A place has one text in all reports: by its source's bytes, and by where the lines of these begin.
pub fn places_have_one_text()
    ensures { (texts : List FileText) (place : Place) → PlaceHasOneText texts place }
{}
