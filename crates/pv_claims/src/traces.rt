//! The trace part of a certificate.
ghost use Rattle.std.specs.Prelude.{◌≡◌, ℕ, ℤ, Bool, Option, List, ◌∷◌, ◌++◌, length, map, IfOk, IfErr, IfSome, IfNone};
ghost use Rattle.pv_claims.specs.declared.claim.TraceForm.TheVariants.{Run, Stretch};
ghost use Rattle.pv_claims.specs.declared.trace.Trace.{Trace};
ghost use Rattle.pv_claims.specs.Lines.{HasMany, StopsAt, text_of_lines};
ghost use Rattle.pv_claims.specs.TracePart.{AllFit, HasTrace, prev_line, scan_line, trace_form, trace_lines};

use crate::claim::{Claim, TraceForm, trace_form};
use crate::lines::strip;
use crate::stop::Stop;
use crate::trace::{CellValues, ScanInputs, Trace};
use crate::values::values_line;
use std::alloc::Global;

/// So many lines of scans, and what follows them.
fn scans(alloc: Global, count: u64, text: &[u8]) -> Result<(ScanInputs, &[u8]), Stop>
    ensures ok { IfOk result (λ cut. HasMany (List ℤ) AllFit count cut.0
        × (text.now ≡ text_of_lines (map scan_line cut.0) ++ cut.1.now)) }
    ensures stuck { IfErr result
        (StopsAt (List (List ℤ)) (HasMany (List ℤ) AllFit count) (map scan_line) text.now) }
{
    let mut scans = ScanInputs::new(alloc);
    let mut rest = text;
    let mut left = count;
    while left > 0 {
        let Some((values, after)) = values_line(alloc, rest, b"scan")? else {
            return Err(Stop::Left(rest.len()));
        };
        scans.push(values)?;
        rest = after;
        left -= 1;
    }
    Ok((scans, rest))
}

/// The line of what a pattern says of the scan before an image, and what follows that.
fn prev(text: &[u8]) -> Option<(Option<bool>, &[u8])>
    ensures found { IfSome result (λ cut. text.now ≡ prev_line cut.0 ++ 10 ∷ cut.1.now) }
    ensures none { IfNone result ((prev : Option Bool) (after : List ℕ)
        → text.now ≡ prev_line prev ++ 10 ∷ after → ⊥) }
{
    if let Some(rest) = strip(text, b"prev none\n") {
        return Some((None, rest));
    }
    if let Some(rest) = strip(text, b"prev 0\n") {
        return Some((Some(false), rest));
    }
    let rest = strip(text, b"prev 1\n")?;
    Some((Some(true), rest))
}

/// The params and so many scans from the start.
fn run(alloc: Global, count: u64, text: &[u8]) -> Result<(Option<Trace>, &[u8]), Stop>
    ensures ok { IfOk result (λ cut. HasTrace (Run count) cut.0
        × (text.now ≡ text_of_lines (trace_lines cut.0) ++ cut.1.now)) }
    ensures stuck { IfErr result
        (StopsAt (Option Trace) (HasTrace (Run count)) trace_lines text.now) }
{
    let Some((params, rest)) = values_line(alloc, text, b"params")? else {
        return Err(Stop::Left(text.len()));
    };
    let (inputs, after) = scans(alloc, count, rest)?;
    let trace = Trace {
        image: None,
        prev: None,
        params,
        inputs,
    };
    Ok((Some(trace), after))
}

/// An image, what was before it, and so many scans.
fn stretch(alloc: Global, count: u64, text: &[u8]) -> Result<(Option<Trace>, &[u8]), Stop>
    ensures ok { IfOk result (λ cut. HasTrace (Stretch count) cut.0
        × (text.now ≡ text_of_lines (trace_lines cut.0) ++ cut.1.now)) }
    ensures stuck { IfErr result
        (StopsAt (Option Trace) (HasTrace (Stretch count)) trace_lines text.now) }
{
    let Some((image, rest)) = values_line(alloc, text, b"image")? else {
        return Err(Stop::Left(text.len()));
    };
    let Some((prev, behind)) = prev(rest) else {
        return Err(Stop::Left(rest.len()));
    };
    let (inputs, after) = scans(alloc, count, behind)?;
    let trace = Trace {
        image: Some(image),
        prev,
        params: CellValues::new(alloc),
        inputs,
    };
    Ok((Some(trace), after))
}

/// The trace part of a certificate with this claim, and what follows it. A refusal tells the line
/// with which no such part goes on. As many scans are read as stand there, so a claim of many asks
/// for no memory.
pub fn read_trace_part(
    alloc: Global,
    claim: Claim,
    text: &[u8],
) -> Result<(Option<Trace>, &[u8]), Stop>
    ensures ok { IfOk result (λ cut. HasTrace (trace_form claim) cut.0
        × (text.now ≡ text_of_lines (trace_lines cut.0) ++ cut.1.now)) }
    ensures stuck { IfErr result
        (StopsAt (Option Trace) (HasTrace (trace_form claim)) trace_lines text.now) }
{
    match trace_form(claim) {
        TraceForm::Nothing => Ok((None, text)),
        TraceForm::Run(count) => run(alloc, count, text),
        TraceForm::Stretch(count) => stretch(alloc, count, text),
    }
}
