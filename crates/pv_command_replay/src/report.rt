//! The report of a replay.
ghost use Rattle.std.specs.Prelude.{◌≡◌, IfOk, map, string_bytes};
ghost use Rattle.pv_command_load.specs.Positions as positions;
ghost use Rattle.pv_command_load.specs.Positions.{LiesAmong};
ghost use Rattle.pv_command_load.specs.Stops.{text_tree};
ghost use Rattle.pv_command_replay.specs.Reports as reports;
ghost use Rattle.pv_command_replay.specs.Reports.{end_text, report_text};
ghost use Rattle.pv_command_replay.specs.Located.{CauseLies, EndLies};
ghost use Rattle.pv_command_replay.specs.declared.end.End.TheVariants.{Broken, Over, NotReached};

use crate::end::{Cause, End};
use pv_case::PatternKind;
use pv_command_load::{SourcePosition, SourceText};
use pv_place::{Place, TrapKind};
use pv_report::{head, trap_name};
use std::alloc::{AllocError, Global};

fn place_text(alloc: Global, sources: &[SourceText], place: Place) -> Result<String, AllocError>
    requires { LiesAmong (map text_tree sources.now) place }
    ensures { IfOk result (λ text. string_bytes text ≡ positions.place_text (map text_tree sources.now) place) }
{
    let at = SourcePosition::of(alloc, sources, place)?;
    at.text(alloc)
}

/// `trap KIND PLACE`.
fn trap_text(
    alloc: Global,
    sources: &[SourceText],
    kind: TrapKind,
    place: Place,
) -> Result<String, AllocError>
    requires { LiesAmong (map text_tree sources.now) place }
    ensures { IfOk result (λ text. string_bytes text ≡ reports.trap_text (map text_tree sources.now) kind place) }
{
    let kind = trap_name(kind);
    let at = place_text(alloc, sources, place)?;
    format!(in alloc; "trap {kind} {at}")
}

fn cause_text(alloc: Global, sources: &[SourceText], cause: Cause) -> Result<String, AllocError>
    requires { CauseLies (map text_tree sources.now) cause }
    ensures { IfOk result (λ text. string_bytes text ≡ reports.cause_text (map text_tree sources.now) cause) }
{
    match cause {
        Cause::Pattern => String::from_str(alloc, "pattern"),
        Cause::Trap(kind, place) => trap_text(alloc, sources, kind, place),
    }
}

fn broken_lines(
    alloc: Global,
    sources: &[SourceText],
    scan: u64,
    cause: Cause,
) -> Result<String, AllocError>
    requires { EndLies (map text_tree sources.now) (Broken scan cause) }
    ensures { IfOk result (λ text. string_bytes text ≡ end_text (map text_tree sources.now) (Broken scan cause)) }
{
    let cause = cause_text(alloc, sources, cause)?;
    format!(in alloc; "replay broken\nscan {scan}\ncause {cause}\n")
}

fn over_lines(
    alloc: Global,
    sources: &[SourceText],
    scan: u64,
    place: Place,
) -> Result<String, AllocError>
    requires { EndLies (map text_tree sources.now) (Over scan place) }
    ensures { IfOk result (λ text. string_bytes text ≡ end_text (map text_tree sources.now) (Over scan place)) }
{
    let at = place_text(alloc, sources, place)?;
    format!(in alloc; "replay over\nscan {scan}\nover {at}\n")
}

fn not_reached_lines(
    alloc: Global,
    sources: &[SourceText],
    scans: u64,
    trap: Option<(TrapKind, Place)>,
) -> Result<String, AllocError>
    requires { EndLies (map text_tree sources.now) (NotReached scans trap) }
    ensures { IfOk result (λ text. string_bytes text ≡ end_text (map text_tree sources.now) (NotReached scans trap)) }
{
    match trap {
        None => format!(in alloc; "replay not reached\nscans {scans}\n"),
        Some((kind, place)) => {
            let trap = trap_text(alloc, sources, kind, place)?;
            format!(in alloc; "replay not reached\nscans {scans}\n{trap}\n")
        }
    }
}

/// The lines of an end, with places in these sources; an error where memory ends.
pub fn end_lines(alloc: Global, sources: &[SourceText], end: End) -> Result<String, AllocError>
    requires { EndLies (map text_tree sources.now) end }
    ensures { IfOk result (λ text. string_bytes text ≡ end_text (map text_tree sources.now) end) }
{
    match end {
        End::Kept { scans } => format!(in alloc; "replay kept\nscans {scans}\n"),
        End::Broken { scan, cause } => broken_lines(alloc, sources, scan, cause),
        End::Over { scan, place } => over_lines(alloc, sources, scan, place),
        End::Reached { scan } => format!(in alloc; "replay reached\nscan {scan}\n"),
        End::NotReached { scans, trap } => not_reached_lines(alloc, sources, scans, trap),
    }
}

/// The report of a replay of the case of this name, with a requirement of this kind, over these sources.
pub(crate) fn report(
    alloc: Global,
    case: &String,
    kind: PatternKind,
    sources: &[SourceText],
    end: End,
) -> Result<String, AllocError>
    requires { EndLies (map text_tree sources.now) end }
    ensures { IfOk result (λ text. string_bytes text ≡ report_text (string_bytes case.now) kind (map text_tree sources.now) end) }
{
    let head = head(alloc, case, kind)?;
    let lines = end_lines(alloc, sources, end)?;
    format!(in alloc; "{head}{lines}")
}
