//! Writing the lines of a certificate up to its proofs.
ghost use Rattle.std.specs.Prelude.{◌≡◌, ◌++◌, OnOk, Some, map, codes};
ghost use Rattle.std.specs.List.{AllByRecursion};
ghost use Rattle.std.specs.Fmt.{decimal};
ghost use Rattle.pv_claims.specs.Lines.{text_of_lines};
ghost use Rattle.pv_claims.specs.Heads.{ClaimFits, claim_text, head_lines};
ghost use Rattle.pv_claims.specs.TracePart.{AllFit, BeginFits, TraceFits, ValuesFit, begin_lines, image_line, params_line, prev_line, scan_line, trace_lines, values_text};

use crate::claim::Claim;
use crate::trace::{CellValues, Trace};
use itoa::Buffer;
use std::alloc::AllocError;

/// Adds a word and a number.
fn push_numbered(text: &mut Vec<u8>, front: &[u8], n: u32) -> Result<(), AllocError>
    ensures { OnOk result (text.new.items ≡ text.old.items ++ (front.now ++ decimal n)) }
{
    let mut buffer = Buffer::new();
    text.extend_from_slice(front)?;
    text.extend_from_slice(buffer.format(n).as_bytes())?;
    Ok(())
}

fn push_region(text: &mut Vec<u8>, x: u64) -> Result<(), AllocError>
    ensures { OnOk result (text.new.items ≡ text.old.items ++ (codes "region " ++ decimal x)) }
{
    let mut buffer = Buffer::new();
    text.extend_from_slice(b"region ")?;
    text.extend_from_slice(buffer.format(x).as_bytes())?;
    Ok(())
}

fn push_claim(text: &mut Vec<u8>, claim: Claim) -> Result<(), AllocError>
    ensures text { OnOk result (text.new.items ≡ text.old.items ++ claim_text claim) }
    ensures fits { ClaimFits claim }
{
    match claim {
        Claim::Satisfied(k) => push_numbered(text, b"satisfied ", k),
        Claim::Unreachable(k) => push_numbered(text, b"unreachable ", k),
        Claim::Violated(n) => push_numbered(text, b"violated ", n),
        Claim::Trapped(n) => push_numbered(text, b"trapped ", n),
        Claim::Reached(n) => push_numbered(text, b"reached ", n),
        Claim::Depth(k) => push_numbered(text, b"depth ", k),
        Claim::Loop(n) => push_numbered(text, b"loop ", n),
        Claim::Lemmas(b) => push_numbered(text, b"lemmas ", b),
        Claim::Region(x) => push_region(text, x),
    }
}

/// Adds the two lines before a trace part.
pub fn push_head(text: &mut Vec<u8>, claim: Claim) -> Result<(), AllocError>
    ensures text { OnOk result (text.new.items
        ≡ text.old.items ++ text_of_lines (head_lines claim)) }
    ensures fits { ClaimFits claim }
{
    text.extend_from_slice(b"PLCVCERT 1\nverdict ")?;
    push_claim(text, claim)?;
    text.push(b'\n')?;
    Ok(())
}

fn push_values(text: &mut Vec<u8>, values: &[i128]) -> Result<(), AllocError>
    ensures text { OnOk result (text.new.items ≡ text.old.items ++ values_text values.now) }
    ensures fits { OnOk result (AllFit values.now) }
{
    for value in values {
        let mut buffer = Buffer::new();
        text.push(b' ')?;
        text.extend_from_slice(buffer.format(*value).as_bytes())?;
    }
    Ok(())
}

/// Adds a line of values behind a word.
fn push_line(text: &mut Vec<u8>, word: &[u8], values: &CellValues) -> Result<(), AllocError>
    ensures text { OnOk result (text.new.items
        ≡ text.old.items ++ ((word.now ++ values_text values.now) ++ codes "\n")) }
    ensures fits { OnOk result (AllFit values.now) }
{
    text.extend_from_slice(word)?;
    push_values(text, values.as_slice())?;
    text.push(b'\n')?;
    Ok(())
}

fn push_prev(text: &mut Vec<u8>, prev: Option<bool>) -> Result<(), AllocError>
    ensures { OnOk result (text.new.items ≡ text.old.items ++ (prev_line prev ++ codes "\n")) }
{
    match prev {
        None => text.extend_from_slice(b"prev none\n"),
        Some(false) => text.extend_from_slice(b"prev 0\n"),
        Some(true) => text.extend_from_slice(b"prev 1\n"),
    }
}

fn push_scans(text: &mut Vec<u8>, scans: &[CellValues]) -> Result<(), AllocError>
    ensures text { OnOk result (text.new.items
        ≡ text.old.items ++ text_of_lines (map scan_line scans.now)) }
    ensures fits { OnOk result (AllByRecursion AllFit scans.now) }
{
    for values in scans {
        push_line(text, b"scan", values)?;
    }
    Ok(())
}

fn push_begin(text: &mut Vec<u8>, trace: &Trace) -> Result<(), AllocError>
    ensures text { OnOk result (text.new.items
        ≡ text.old.items
        ++ text_of_lines (begin_lines trace.now.image trace.now.prev trace.now.params)) }
    ensures fits { OnOk result (BeginFits trace.now.image trace.now.params) }
{
    match &trace.image {
        Some(image) => {
            push_line(text, b"image", image)?;
            push_prev(text, trace.prev)
        }
        None => push_line(text, b"params", &trace.params),
    }
}

fn push_trace(text: &mut Vec<u8>, trace: &Trace) -> Result<(), AllocError>
    ensures text { OnOk result (text.new.items
        ≡ text.old.items ++ text_of_lines (trace_lines (Some trace.now))) }
    ensures fits { OnOk result (ValuesFit trace.now) }
{
    push_begin(text, trace)?;
    push_scans(text, trace.inputs.as_slice())
}

/// Adds the lines of a trace part. Which trace belongs to a claim is asked by no clause.
pub fn push_trace_part(text: &mut Vec<u8>, trace: &Option<Trace>) -> Result<(), AllocError>
    ensures text { OnOk result (text.new.items
        ≡ text.old.items ++ text_of_lines (trace_lines trace.now)) }
    ensures fits { OnOk result (TraceFits trace.now) }
{
    match trace {
        Some(trace) => push_trace(text, trace),
        None => Ok(()),
    }
}
