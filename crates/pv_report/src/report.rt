//! The report of a verdict.
ghost use Rattle.std.specs.Prelude.{◌≡◌, ◌++◌, codes, map, Some, IfSome, IfOk, OnOk, string_bytes};
ghost use Rattle.std.specs.Fmt.{decimal};
ghost use Rattle.pv_report.specs.Places.{file_lines};
ghost use Rattle.pv_report.specs.Reports.{query_line, ending_text, ending_line, trace_lines, mark_word, prev_line, image_lines, state_lines, numbered, claim_lines, shown_lines, report_text};
ghost use Rattle.pv_report.specs.Correct.{EndsIn};

use crate::group::{Group, push_scans};
use crate::places::{FileLines, Places, push_number, push_place};
use crate::verdict::Verdict;
use crate::words::{head, trap_name};
use pv_case::{Case, Limits, PatternKind};
use pv_cert::Query;
use pv_claims::{CellValues, Claim, Ending, Trace};
use pv_mean::Cell;
use std::alloc::{AllocError, Global};

/// Puts a line that a number ends behind a text.
fn push_numbered(text: &mut Vec<u8>, front: &[u8], n: u64) -> Result<(), AllocError>
    ensures { OnOk result (text.new.items ≡ text.old.items ++ (front.now ++ (decimal n ++ codes "\n"))) }
{
    text.extend_from_slice(front)?;
    push_number(text, n)?;
    text.push(b'\n')?;
    Ok(())
}

/// Puts how a scan ends behind a text.
fn push_ending(text: &mut Vec<u8>, files: &[FileLines], ending: Ending) -> Result<(), AllocError>
    requires { EndsIn (map file_lines files.now) ending }
    ensures { OnOk result (text.new.items ≡ text.old.items ++ ending_text (map file_lines files.now) ending) }
{
    match ending {
        Ending::Pattern => {
            text.extend_from_slice(b"pattern")?;
            Ok(())
        }
        Ending::Trap(kind, place) => {
            text.extend_from_slice(b"trap ")?;
            text.extend_from_slice(trap_name(kind).as_bytes())?;
            text.push(b' ')?;
            push_place(text, files, place)
        }
        Ending::Over(place) => {
            text.extend_from_slice(b"over ")?;
            push_place(text, files, place)
        }
    }
}

/// Puts the line of an ending behind a text, with this in front, if there is one.
fn push_ending_line(
    text: &mut Vec<u8>,
    front: &[u8],
    files: &[FileLines],
    ending: Option<Ending>,
) -> Result<(), AllocError>
    requires { IfSome ending (EndsIn (map file_lines files.now)) }
    ensures { OnOk result (text.new.items
        ≡ text.old.items ++ ending_line front.now (map file_lines files.now) ending) }
{
    let Some(ending) = ending else {
        return Ok(());
    };
    text.extend_from_slice(front)?;
    push_ending(text, files, ending)?;
    text.push(b'\n')?;
    Ok(())
}

fn push_query(text: &mut Vec<u8>, query: Option<Query>) -> Result<(), AllocError>
    ensures { OnOk result (text.new.items ≡ text.old.items ++ query_line query) }
{
    match query {
        None => Ok(()),
        Some(Query::Base(k)) => push_numbered(text, b"query base ", u64::from(k)),
        Some(Query::Step(k)) => push_numbered(text, b"query step ", u64::from(k)),
    }
}

/// Puts the lines of a run from the start behind a text.
fn push_run(text: &mut Vec<u8>, cells: &[Cell], trace: &Trace) -> Result<(), AllocError>
    ensures { OnOk result (text.new.items ≡ text.old.items ++ trace_lines cells.now (Some trace.now)) }
{
    Group::Param.push_lines(text, cells, trace.params.as_slice())?;
    push_scans(text, cells, trace.inputs.as_slice())
}

fn push_trace(text: &mut Vec<u8>, cells: &[Cell], trace: &Option<Trace>) -> Result<(), AllocError>
    ensures { OnOk result (text.new.items ≡ text.old.items ++ trace_lines cells.now trace.now) }
{
    match trace {
        Some(trace) => push_run(text, cells, trace),
        None => Ok(()),
    }
}

fn mark_name(mark: Option<bool>) -> &'static str
    ensures { result.now ≡ mark_word mark }
{
    match mark {
        None => "none",
        Some(false) => "0",
        Some(true) => "1",
    }
}

/// Puts the line of the mark that the scan before left behind a text, which between alone has.
fn push_prev(text: &mut Vec<u8>, kind: PatternKind, prev: Option<bool>) -> Result<(), AllocError>
    ensures { OnOk result (text.new.items ≡ text.old.items ++ prev_line kind prev) }
{
    match kind {
        PatternKind::Between => {
            text.extend_from_slice(b"prev ")?;
            text.extend_from_slice(mark_name(prev).as_bytes())?;
            text.push(b'\n')?;
            Ok(())
        }
        PatternKind::Invariant
        | PatternKind::Forbidden
        | PatternKind::Implication
        | PatternKind::Within
        | PatternKind::Reach => Ok(()),
    }
}

fn push_image(
    text: &mut Vec<u8>,
    cells: &[Cell],
    image: &Option<CellValues>,
) -> Result<(), AllocError>
    ensures { OnOk result (text.new.items ≡ text.old.items ++ image_lines cells.now image.now) }
{
    match image {
        Some(values) => Group::Image.push_lines(text, cells, values.as_slice()),
        None => Ok(()),
    }
}

/// Puts the lines of a stretch from an image behind a text.
fn push_stretch(
    text: &mut Vec<u8>,
    kind: PatternKind,
    cells: &[Cell],
    trace: &Trace,
) -> Result<(), AllocError>
    ensures { OnOk result (text.new.items ≡ text.old.items ++ state_lines kind cells.now (Some trace.now)) }
{
    push_prev(text, kind, trace.prev)?;
    push_image(text, cells, &trace.image)?;
    push_scans(text, cells, trace.inputs.as_slice())
}

fn push_state(
    text: &mut Vec<u8>,
    kind: PatternKind,
    cells: &[Cell],
    trace: &Option<Trace>,
) -> Result<(), AllocError>
    ensures { OnOk result (text.new.items ≡ text.old.items ++ state_lines kind cells.now trace.now) }
{
    match trace {
        Some(trace) => push_stretch(text, kind, cells, trace),
        None => Ok(()),
    }
}

/// Puts the lines of a claim behind a text, with the case's limits.
fn push_claim(text: &mut Vec<u8>, limits: &Limits, claim: Claim) -> Result<(), AllocError>
    ensures { OnOk result (text.new.items ≡ text.old.items ++ claim_lines limits.now claim) }
{
    match claim {
        Claim::Satisfied(k) => push_numbered(text, b"verdict satisfied\nk ", u64::from(k)),
        Claim::Unreachable(k) => push_numbered(text, b"verdict unreachable\nk ", u64::from(k)),
        Claim::Violated(n) => push_numbered(text, b"verdict violated\nscan ", u64::from(n)),
        Claim::Trapped(n) => push_numbered(text, b"verdict trapped\nscan ", u64::from(n)),
        Claim::Reached(n) => push_numbered(text, b"verdict reached\nscan ", u64::from(n)),
        Claim::Depth(_) => {
            push_numbered(
                text,
                b"verdict undecided\nlimit depth ",
                u64::from(limits.depth),
            )
        }
        Claim::Loop(n) => push_loop(text, limits.loop_bound, n),
        Claim::Lemmas(_) => {
            push_numbered(
                text,
                b"verdict undecided\nlimit lemmas ",
                u64::from(limits.lemmas),
            )
        }
        Claim::Region(need) => push_region(text, limits.region_words, need),
    }
}

fn push_loop(text: &mut Vec<u8>, bound: u32, scan: u32) -> Result<(), AllocError>
    ensures { OnOk result (text.new.items ≡ text.old.items
        ++ (numbered (codes "verdict undecided\nlimit loop ") bound ++ numbered (codes "scan ") scan)) }
{
    push_numbered(text, b"verdict undecided\nlimit loop ", u64::from(bound))?;
    push_numbered(text, b"scan ", u64::from(scan))
}

fn push_region(text: &mut Vec<u8>, words: u64, need: u64) -> Result<(), AllocError>
    ensures { OnOk result (text.new.items ≡ text.old.items
        ++ (numbered (codes "verdict undecided\nlimit region ") words ++ numbered (codes "need ") need)) }
{
    push_numbered(text, b"verdict undecided\nlimit region ", words)?;
    push_numbered(text, b"need ", need)
}

/// Puts what shows a claim behind a text.
fn push_shown(
    text: &mut Vec<u8>,
    kind: PatternKind,
    cells: &[Cell],
    files: &[FileLines],
    verdict: &Verdict,
) -> Result<(), AllocError>
    requires { IfSome verdict.now.ending (EndsIn (map file_lines files.now)) }
    ensures { OnOk result (text.new.items ≡ text.old.items
        ++ shown_lines kind cells.now (map file_lines files.now) verdict.now.claim verdict.now) }
{
    match verdict.claim {
        Claim::Satisfied(_) | Claim::Unreachable(_) => Ok(()),
        Claim::Violated(_) | Claim::Reached(_) => push_trace(text, cells, &verdict.trace),
        Claim::Trapped(_) | Claim::Loop(_) => {
            push_ending_line(text, b"", files, verdict.ending)?;
            push_trace(text, cells, &verdict.trace)
        }
        Claim::Depth(_) => {
            push_ending_line(text, b"cause ", files, verdict.ending)?;
            push_state(text, kind, cells, &verdict.trace)
        }
        Claim::Lemmas(_) | Claim::Region(_) => push_query(text, verdict.query),
    }
}

/// The report of a verdict on the case, the place of whose ending, if it has one, lies in one of the files. The cells are those of the
/// case's project, and the trace has a value for each cell that a line is printed for, in the order of the table.
///
/// A part that the verdict lacks has no lines, and so has a cell without a value.
pub fn text(
    alloc: Global,
    case: &Case,
    cells: &[Cell],
    places: &Places,
    verdict: &Verdict,
) -> Result<Vec<u8>, AllocError>
    requires { IfSome verdict.now.ending (EndsIn (map file_lines places.now.files.items)) }
    ensures { IfOk result (λ text. text.items ≡ report_text (string_bytes case.now.name) case.now.pattern.kind
        case.now.limits cells.now (map file_lines places.now.files.items) verdict.now) }
{
    let head = head(alloc, &case.name, case.pattern.kind)?;
    let mut text = Vec::new(alloc);
    text.extend_from_slice(head.as_bytes())?;
    push_claim(&mut text, &case.limits, verdict.claim)?;
    push_shown(
        &mut text,
        case.pattern.kind,
        cells,
        places.files.as_slice(),
        verdict,
    )?;
    Ok(text)
}
