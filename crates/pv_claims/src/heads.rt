//! The first two lines of a certificate.
ghost use Rattle.std.specs.Prelude.{◌≡◌, ℕ, List, ◌∷◌, ◌++◌, IfOk, IfErr, IfSome, IfNone};
ghost use Rattle.pv_claims.specs.declared.claim.Claim.{Claim};
ghost use Rattle.pv_claims.specs.Lines.{StopsAt, text_of_lines};
ghost use Rattle.pv_claims.specs.Heads.{ClaimFits, claim_text, verdict_line, head_lines};

use crate::claim::Claim;
use crate::lines::{cut_line, strip};
use crate::numbers::{number_behind, wide_number_behind};
use crate::stop::Stop;

/// The claim whose words these are.
fn claim_of(words: &[u8]) -> Option<Claim>
    ensures found { IfSome result (λ claim. ClaimFits claim × (words.now ≡ claim_text claim)) }
    ensures none { IfNone result ((claim : Claim) → ClaimFits claim
        → words.now ≡ claim_text claim → ⊥) }
{
    if let Some(k) = number_behind(words, b"satisfied ") {
        return Some(Claim::Satisfied(k));
    }
    if let Some(k) = number_behind(words, b"unreachable ") {
        return Some(Claim::Unreachable(k));
    }
    if let Some(n) = number_behind(words, b"violated ") {
        return Some(Claim::Violated(n));
    }
    if let Some(n) = number_behind(words, b"trapped ") {
        return Some(Claim::Trapped(n));
    }
    if let Some(n) = number_behind(words, b"reached ") {
        return Some(Claim::Reached(n));
    }
    if let Some(n) = number_behind(words, b"loop ") {
        return Some(Claim::Loop(n));
    }
    if let Some(k) = number_behind(words, b"depth ") {
        return Some(Claim::Depth(k));
    }
    if let Some(b) = number_behind(words, b"lemmas ") {
        return Some(Claim::Lemmas(b));
    }
    let x = wide_number_behind(words, b"region ")?;
    Some(Claim::Region(x))
}

/// The claim of a verdict line.
fn claim_in(line: &[u8]) -> Option<Claim>
    ensures found { IfSome result (λ claim. ClaimFits claim × (line.now ≡ verdict_line claim)) }
    ensures none { IfNone result ((claim : Claim) → ClaimFits claim
        → line.now ≡ verdict_line claim → ⊥) }
{
    let words = strip(line, b"verdict ")?;
    claim_of(words)
}

/// The claim of the first line, and what follows that.
fn verdict(text: &[u8]) -> Option<(Claim, &[u8])>
    ensures found { IfSome result (λ cut. ClaimFits cut.0
        × (text.now ≡ verdict_line cut.0 ++ 10 ∷ cut.1.now)) }
    ensures none { IfNone result ((claim : Claim) (after : List ℕ) → ClaimFits claim
        → text.now ≡ verdict_line claim ++ 10 ∷ after → ⊥) }
{
    let (line, after) = cut_line(text)?;
    let claim = claim_in(line)?;
    Some((claim, after))
}

/// The claim of a certificate, and what follows its verdict line. A refusal tells the line with
/// which no certificate begins so.
pub fn read_head(text: &[u8]) -> Result<(Claim, &[u8]), Stop>
    ensures ok { IfOk result (λ cut. ClaimFits cut.0
        × (text.now ≡ text_of_lines (head_lines cut.0) ++ cut.1.now)) }
    ensures stuck { IfErr result (StopsAt Claim ClaimFits head_lines text.now) }
{
    let Some(rest) = strip(text, b"PLCVCERT 1\n") else {
        return Err(Stop::Left(text.len()));
    };
    match verdict(rest) {
        Some(head) => Ok(head),
        None => Err(Stop::Left(rest.len())),
    }
}
