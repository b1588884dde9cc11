//! Reading a trace.
ghost use Rattle.std.specs.Prelude.{◌≡◌, ℕ, ℤ, List, [], ◌++◌, Ok, Err, codes, IfOk, MatchOption, IsTrue, ◌↔◌};
ghost use Rattle.std.specs.List.{AllByRecursion};
ghost use Rattle.pv_claims.specs.declared.trace.Trace.{Trace};
ghost use Rattle.pv_trace.specs.TraceText.{AreBetween, IsRange, IsTextOf, FailsAt, IsUnlessNoMemory, values_text};
ghost use Rattle.pv_trace.specs.Scans.{ReadsScans, ReadsTrace};

use crate::values::{strip, values_at};
use pv_claims::{CellValues, CertFault, ScanInputs, Trace, cut_line};
use std::alloc::{AllocError, Global};

/// The values of a line behind its first word.
fn values_behind(
    alloc: Global,
    line: &[u8],
    word: &[u8],
    ranges: &[(i128, i128)],
) -> Result<Option<CellValues>, AllocError>
    requires { AllByRecursion IsRange ranges.now }
    ensures { IfOk result (λ found. MatchOption found
        ((values : List ℤ) → AreBetween ranges.now values → line.now ≡ word.now ++ values_text values → ⊥)
        (λ values. AreBetween ranges.now values × (line.now ≡ word.now ++ values_text values))) }
{
    match strip(line, word) {
        Some(rest) => values_at(alloc, rest, ranges),
        None => Ok(None),
    }
}

/// Whether two texts are the same.
fn is_same(text: &[u8], other: &[u8]) -> bool
    ensures { IsTrue result ↔ (text.now ≡ other.now) }
{
    text == other
}

/// Whether nothing is left.
fn is_over(rest: &[u8]) -> bool
    ensures { IsTrue result ↔ (rest.now ≡ []) }
{
    rest.is_empty()
}

/// Reads the scans and the end, from line 3 on.
fn read_scans(alloc: Global, text: &[u8], ranges: &[(i128, i128)]) -> Result<ScanInputs, CertFault>
    requires { AllByRecursion IsRange ranges.now }
    ensures { ReadsScans ranges.now text.now result }
{
    let mut scans = ScanInputs::new(alloc);
    let mut rest = text;
    let mut line = 3;
    while let Some((next, after)) = cut_line(rest) {
        if is_same(next, b"end") {
            return if is_over(after) {
                Ok(scans)
            } else {
                Err(CertFault::NotACertificate { line: line + 1 })
            };
        }
        let Some(values) = values_behind(alloc, next, b"scan", ranges)? else {
            return Err(CertFault::NotACertificate { line });
        };
        scans.push(values)?;
        rest = after;
        line += 1;
    }
    Err(CertFault::NotACertificate { line })
}

/// Reads the whole.
fn read_lines(
    alloc: Global,
    bytes: &[u8],
    params: &[(i128, i128)],
    inputs: &[(i128, i128)],
) -> Result<Trace, CertFault>
    requires params { AllByRecursion IsRange params.now }
    requires inputs { AllByRecursion IsRange inputs.now }
    ensures { ReadsTrace params.now inputs.now bytes.now result }
{
    let Some((head, rest)) = cut_line(bytes) else {
        return Err(CertFault::NotACertificate { line: 1 });
    };
    if !is_same(head, b"PLCVTRACE 1") {
        return Err(CertFault::NotACertificate { line: 1 });
    }
    let Some((line, rest)) = cut_line(rest) else {
        return Err(CertFault::NotACertificate { line: 2 });
    };
    let Some(values) = values_behind(alloc, line, b"params", params)? else {
        return Err(CertFault::NotACertificate { line: 2 });
    };
    let scans = read_scans(alloc, rest, inputs)?;
    Ok(Trace {
        image: None,
        prev: None,
        params: values,
        inputs: scans,
    })
}

/// Reads the text of a trace that begins at the start, from the least and the greatest value of each unbound parameter and of each
/// input cell, in the order of the table. A value has no needless zeros and no needless sign, and each line ends with a line feed
/// alone. The refusal's line, from 1, is the first with which no trace of these ranges begins so, or the one behind the last line
/// where some trace goes on.
pub fn read_trace(
    alloc: Global,
    bytes: &[u8],
    params: &[(i128, i128)],
    inputs: &[(i128, i128)],
) -> Result<Trace, CertFault>
    requires params { AllByRecursion IsRange params.now }
    requires inputs { AllByRecursion IsRange inputs.now }
    // What is read has this text, and what has this text is read.
    ensures found { IfOk result (IsTextOf params.now inputs.now bytes.now) }
    ensures complete { (t : Trace) → IsTextOf params.now inputs.now bytes.now t → IsUnlessNoMemory result (Ok t) }
    // A refusal names the first line with which no trace begins so, and where there is one it is refused.
    ensures stuck { (line : ℕ) → result ≡ Err (CertFault.NotACertificate line)
        → FailsAt params.now inputs.now bytes.now line }
    ensures refused { (line : ℕ) → FailsAt params.now inputs.now bytes.now line
        → IsUnlessNoMemory result (Err (CertFault.NotACertificate line)) }
{
    read_lines(alloc, bytes, params, inputs)
}
