//! The parts of a certificate, one after the other.
ghost use Rattle.std.specs.Prelude.{◌≡◌, ◌↔◌, ℕ, List, [], ◌++◌, codes, true, Option, IfOk, IfErr, IsTrue};
ghost use Rattle.pv_log.specs.declared.line.Line.{Line};
ghost use Rattle.pv_claims.specs.Lines.{StopsAt, text_of_lines};
ghost use Rattle.pv_claims.specs.Heads.{ClaimFits};
ghost use Rattle.pv_cert.specs.declared.certificate.Certificate.{Certificate};
ghost use Rattle.pv_cert.specs.CertificateText.{HasNext, HasCertificateText, IsTextOf, certificate_lines, tail_lines};
ghost use Rattle.pv_cert.specs.Reading.{Body, HasBody, HasClaim, IsNoEnd, StopsWith, body_lines, lines_behind_head};

use crate::certificate::{Certificate, Proofs};
use crate::logs::lemma_line;
use crate::next::asks_next;
use crate::proofs::proofs;
use pv_claims::{Claim, Stop, read_head, read_trace_part, strip};
use pv_log::Line;
use std::alloc::Global;

/// What follows the line `end`.
fn end(text: &[u8]) -> Result<&[u8], Stop>
    ensures ok { IfOk result (λ rest. text.now ≡ codes "end\n" ++ rest.now) }
    ensures stuck { IfErr result (IsNoEnd text.now) }
{
    match strip(text, b"end\n") {
        Some(rest) => Ok(rest),
        None => Err(Stop::Left(text.len())),
    }
}

/// The next lemma behind the line `next`, and what follows the end.
fn lemma_tail(alloc: Global, text: &[u8]) -> Result<(Option<Line>, &[u8]), Stop>
    ensures ok { (whole : List ℕ) → whole ≡ codes "next\n" ++ text.now
        → IfOk result (λ cut. HasNext true cut.0
        × (whole ≡ text_of_lines (tail_lines true cut.0) ++ cut.1.now)) }
    ensures stuck { (whole : List ℕ) → whole ≡ codes "next\n" ++ text.now
        → IfErr result (StopsAt (Option Line) (HasNext true) (tail_lines true) whole) }
{
    let Some((line, rest)) = lemma_line(alloc, text)? else {
        return Err(Stop::Left(text.len()));
    };
    let after = end(rest)?;
    Ok((Some(line), after))
}

/// What stands behind the proofs of a region, up to the end, and what follows that.
fn region_tail(alloc: Global, text: &[u8]) -> Result<(Option<Line>, &[u8]), Stop>
    ensures ok { IfOk result (λ cut. HasNext true cut.0
        × (text.now ≡ text_of_lines (tail_lines true cut.0) ++ cut.1.now)) }
    ensures stuck { IfErr result (StopsAt (Option Line) (HasNext true) (tail_lines true) text.now) }
{
    if let Some(rest) = strip(text, b"next none\n") {
        let after = end(rest)?;
        return Ok((None, after));
    }
    match strip(text, b"next\n") {
        Some(rest) => lemma_tail(alloc, rest),
        None => Err(Stop::Left(text.len())),
    }
}

/// What stands behind the proofs, up to the end, and what follows that.
fn tail(alloc: Global, region: bool, text: &[u8]) -> Result<(Option<Line>, &[u8]), Stop>
    ensures ok { IfOk result (λ cut. HasNext region cut.0
        × (text.now ≡ text_of_lines (tail_lines region cut.0) ++ cut.1.now)) }
    ensures stuck { IfErr result
        (StopsAt (Option Line) (HasNext region) (tail_lines region) text.now) }
{
    if region {
        return region_tail(alloc, text);
    }
    let after = end(text)?;
    Ok((None, after))
}

/// The proofs and what stands behind them.
fn body(alloc: Global, region: bool, text: &[u8]) -> Result<(Proofs, Option<Line>, &[u8]), Stop>
    ensures ok { IfOk result (λ cut. HasBody region (cut.0, cut.1)
        × (text.now ≡ text_of_lines (body_lines region (cut.0, cut.1)) ++ cut.2.now)) }
    ensures stuck { IfErr result (StopsAt Body (HasBody region) (body_lines region) text.now) }
{
    let (proofs, rest) = proofs(alloc, text)?;
    let (next, after) = tail(alloc, region, rest)?;
    Ok((proofs, next, after))
}

/// A certificate with this claim, whose head was read, and what follows it.
fn shown(alloc: Global, claim: Claim, text: &[u8]) -> Result<(Certificate, &[u8]), Stop>
    ensures ok { ClaimFits claim → IfOk result (λ cut. HasClaim claim cut.0
        × (text.now ≡ text_of_lines (lines_behind_head cut.0) ++ cut.1.now)) }
    ensures stuck { ClaimFits claim → IfErr result
        (StopsAt Certificate (HasClaim claim) lines_behind_head text.now) }
{
    let (trace, rest) = read_trace_part(alloc, claim, text)?;
    let (proofs, next, after) = body(alloc, asks_next(claim), rest)?;
    let certificate = Certificate {
        claim,
        trace,
        proofs,
        next,
    };
    Ok((certificate, after))
}

/// A certificate, and what follows it.
fn certificate(alloc: Global, text: &[u8]) -> Result<(Certificate, &[u8]), Stop>
    ensures ok { IfOk result (λ cut. HasCertificateText cut.0
        × (text.now ≡ text_of_lines (certificate_lines cut.0) ++ cut.1.now)) }
    ensures stuck { IfErr result
        (StopsAt Certificate HasCertificateText certificate_lines text.now) }
{
    let (claim, rest) = read_head(text)?;
    shown(alloc, claim, rest)
}

/// Whether nothing is left.
fn is_over(rest: &[u8]) -> bool
    ensures { IsTrue result ↔ (rest.now ≡ []) }
{
    rest.is_empty()
}

/// The certificate of a text with nothing behind it.
pub(crate) fn whole(alloc: Global, text: &[u8]) -> Result<Certificate, Stop>
    ensures ok { IfOk result (IsTextOf text.now) }
    ensures stuck { IfErr result (StopsWith text.now) }
{
    let (certificate, rest) = certificate(alloc, text)?;
    if is_over(rest) {
        Ok(certificate)
    } else {
        drop(certificate);
        Err(Stop::Left(rest.len()))
    }
}
