//! The report of a verdict on what a command works on.
ghost use Rattle.std.specs.Prelude.{◌≡◌, IfSome, IfOk, map, Option};
ghost use Rattle.pv_claims.specs.declared.trace.Ending.{Ending};
ghost use Rattle.pv_cert.specs.declared.certificate.Certificate.{Certificate};
ghost use Rattle.pv_evidence.specs.Reported.{reported};
ghost use Rattle.pv_report.specs.Places.{file_lines};
ghost use Rattle.pv_report.specs.Correct.{EndsIn};
ghost use Rattle.pv_bool_load.specs.Handed.{SubjectData, text_tree, IsSubject};
ghost use Rattle.pv_command_verdict.specs.Verdicts.{text_lines, source_lines, verdict_text};

use pv_bool_load::{SourceText, Subject};
use pv_report::{FileLines, Places, Verdict, text};
use std::alloc::{AllocError, Global};

/// A source by where its lines begin.
fn lines_of(alloc: Global, source: &SourceText) -> Result<FileLines, AllocError>
    ensures { IfOk result (λ lines. file_lines lines ≡ text_lines (text_tree source.now)) }
{
    FileLines::of(alloc, source.file.as_str(), source.bytes.as_slice())
}

/// The sources by where their lines begin.
fn places_of(alloc: Global, sources: &[SourceText]) -> Result<Places, AllocError>
    ensures { IfOk result (λ places. map file_lines places.files.items ≡ source_lines sources.now) }
{
    let mut files = Vec::new(alloc);
    for source in sources {
        let lines = lines_of(alloc, source)?;
        files.push(lines)?;
    }
    Ok(Places { files })
}

/// The report of a verdict on what a command works on, the place of whose ending, if it has one, lies in one of its sources.
pub fn report_of(alloc: Global, subject: &Subject, verdict: &Verdict) -> Result<Vec<u8>, AllocError>
    requires { IfSome verdict.now.ending (EndsIn (source_lines subject.now.sources.items)) }
    ensures { (s : SubjectData) (c : Certificate) (told : Option Ending) → IsSubject subject.now s
        → verdict.now ≡ reported c told → IfOk result (λ text. text.items ≡ verdict_text s c told) }
{
    let places = places_of(alloc, subject.sources.as_slice())?;
    let made = text(
        alloc,
        &subject.case,
        subject.table.cells(),
        &places,
        verdict,
    );
    drop(places);
    made
}
