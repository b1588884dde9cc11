//! Rows, run one by one.
ghost use Rattle.std.specs.Prelude.{◌≡◌, map, true, IfSome};
ghost use Rattle.pv_report.specs.Places.{file_lines};
ghost use Rattle.pv_report.specs.Correct.{LiesIn, EndsIn};

use crate::claim::verdict_of;
use crate::files::files_of;
use crate::judged::tell_judged;
use crate::trace::{said, trace_of};
use pv_claims::{Ending, Trace};
use pv_command_load::{SourceText, Subject, SubjectStop, subject_in};
use pv_pattern::Pattern;
use pv_place::Place;
use pv_program::make;
use pv_replay::Replay;
use pv_report::{FileLines, Places, Verdict, status, text};
use pv_rows_form::{Calls, Row, Told};
use pv_stretch::{Stretch, StretchEnd, StretchStart, run_stretch};

/// What may stand at the beginning of a line that is no row.
pub const NAMES: [&str; 9] = [
    "#", "file", "lines", "with", "start", "scans", "claim", "begin", "end",
];

/// Rows that are stretches, and reports of them, or single scans.
pub struct Stretches;

/// Runs the stretch from where the trace begins.
fn run_on(replay: &mut Replay<'_>, pattern: &Pattern, trace: &Trace) -> Stretch {
    let inputs = trace.inputs.as_slice();
    match &trace.image {
        Some(image) => {
            let start = StretchStart::Image(image.as_slice(), trace.prev);
            run_stretch(replay, pattern, start, inputs)
        }
        None => {
            let start = StretchStart::Params(trace.params.as_slice());
            run_stretch(replay, pattern, start, inputs)
        }
    }
}

/// The stretch of a trace; none where memory runs out.
fn stretch_of(subject: &Subject, trace: &Trace, told: &mut Told) -> Option<Stretch> {
    match make(
        told.alloc(),
        &subject.project,
        &subject.view,
        &subject.table,
    ) {
        Ok(made) => {
            let mut replay = made;
            Some(run_on(&mut replay, &subject.pattern, trace))
        }
        Err(_) => {
            told.lose();
            None
        }
    }
}

/// How many scans are good, and how the one behind them ends.
fn tell_stretch(stretch: &Stretch, told: &mut Told) {
    told.number(i128::from(stretch.good));
    told.text(" good, ");
    match stretch.ending {
        None => told.text("all good"),
        Some(StretchEnd::Fails(Ending::Pattern)) => told.text("Pattern"),
        Some(StretchEnd::Fails(Ending::Trap(kind, _))) => {
            told.text("Trap ");
            told.words(&kind);
        }
        Some(StretchEnd::Fails(Ending::Over(_))) => told.text("Over"),
        Some(StretchEnd::Stopped(kind, _)) => {
            told.text("Stopped ");
            told.words(&kind);
        }
    }
}

/// Where the lines of the sources begin.
fn places_of(sources: &[SourceText], told: &mut Told) -> Places {
    let mut files = Vec::new(told.alloc());
    for source in sources {
        match FileLines::of(told.alloc(), source.file.as_str(), source.bytes.as_slice()) {
            Ok(lines) => {
                if files.push(lines).is_err() {
                    told.lose();
                }
            }
            Err(_) => told.lose(),
        }
    }
    Places { files }
}

/// Whether a place lies in one of the files.
fn lies_in(places: &Places, place: Place) -> bool
    ensures { result ≡ true → LiesIn (map file_lines places.now.files.items) place }
{
    (place.file as usize) < places.files.as_slice().len()
}

/// Whether the place of an ending, if it has one, lies in one of the files.
fn ends_in(places: &Places, ending: Option<Ending>) -> bool
    ensures { result ≡ true → IfSome ending (EndsIn (map file_lines places.now.files.items)) }
{
    match ending {
        None => true,
        Some(Ending::Pattern) => true,
        Some(Ending::Trap(_, place)) => lies_in(places, place),
        Some(Ending::Over(place)) => lies_in(places, place),
    }
}

/// The status and the report of a verdict.
fn tell_report(subject: &Subject, verdict: &Verdict, told: &mut Told) {
    let places = places_of(subject.sources.as_slice(), told);
    told.text("; ");
    told.number(i128::from(status(verdict.claim)));
    told.text(" ");
    if ends_in(&places, verdict.ending) {
        tell_text(subject, &places, verdict, told);
    } else {
        told.text("a place in no file");
    }
}

/// The report of a verdict, whose places lie in the files.
fn tell_text(subject: &Subject, places: &Places, verdict: &Verdict, told: &mut Told)
    requires { IfSome verdict.now.ending (EndsIn (map file_lines places.now.files.items)) }
{
    match text(
        told.alloc(),
        &subject.case,
        subject.table.cells(),
        places,
        verdict,
    ) {
        Ok(report) => told.bytes(report.as_slice()),
        Err(_) => told.lose(),
    }
}

/// The stretch, and the report of what the row claims of it.
fn tell_subject(subject: &Subject, row: Row<'_>, told: &mut Told) {
    let trace = trace_of(row, told);
    let claim = said(row, "claim", told);
    if let Some(stretch) = stretch_of(subject, &trace, told) {
        tell_stretch(&stretch, told);
        if let Some(verdict) = verdict_of(claim.as_str(), trace, &stretch) {
            tell_report(subject, &verdict, told);
        }
    }
}

/// What the requirement says of the row's scan, where it has one; else the row's stretch.
fn tell_asked(subject: &Subject, row: Row<'_>, told: &mut Told) {
    let end = said(row, "end", told);
    if end.as_str().is_empty() {
        tell_subject(subject, row, told);
    } else {
        tell_judged(&subject.pattern, row, told);
    }
}

/// The line of a fault.
fn tell_stop(stop: &SubjectStop, told: &mut Told) {
    match stop.text(told.alloc()) {
        Ok(line) => told.text(line.as_str()),
        Err(_) => told.lose(),
    }
}

impl Calls for Stretches {
    fn answer(&self, row: Row<'_>, told: &mut Told) {
        let mut files = files_of(row, told);
        match subject_in(told.alloc(), &mut files, "c.json") {
            Ok(subject) => {
                tell_asked(&subject, row, told);
                drop(subject);
            }
            Err(stop) => {
                tell_stop(&stop, told);
                drop(stop);
            }
        }
    }
}
