//! Whether a certificate is of a form that isn't read yet.
ghost use Rattle.std.specs.Prelude.{◌≡◌, ◌↔◌, ◌≢◌, List, ℕ, suc, codes, IfSome, IfNone, IsTrue};
ghost use Rattle.pv_recheck.specs.Form.{IsLine, BeginsWith, HasOtherVerdict, HasReductions};
ghost use Rattle.pv_recheck.specs.Form.{IsUnbuilt};

use pv_claims::cut_line;

/// Line 2 of a text, and what follows it.
fn second(text: &[u8]) -> Option<(&[u8], &[u8])>
    ensures found { IfSome result (λ cut. IsLine 2 text.now cut.0.now) }
    ensures rest { IfSome result (λ cut. (n : ℕ) (line : List ℕ)
        → IsLine (suc (suc (suc n))) text.now line ↔ IsLine (suc n) cut.1.now line) }
    ensures none { IfNone result
        ((n : ℕ) (line : List ℕ) → IsLine (suc (suc n)) text.now line → ⊥) }
{
    let (_, rest) = cut_line(text)?;
    cut_line(rest)
}

/// Line 4 of a text.
fn fourth(text: &[u8]) -> Option<&[u8]>
    ensures found { IfSome result (λ line. IsLine 4 text.now line.now) }
    ensures none { IfNone result ((line : List ℕ) → IsLine 4 text.now line → ⊥) }
{
    let (_, rest) = second(text)?;
    let (line, _) = second(rest)?;
    Some(line)
}

fn is_same(text: &[u8], other: &[u8]) -> bool
    ensures { IsTrue result ↔ (text.now ≡ other.now) }
{
    text == other
}

fn begins_with(text: &[u8], prefix: &[u8]) -> bool
    ensures { IsTrue result ↔ BeginsWith prefix.now text.now }
{
    match text.strip_prefix(prefix) {
        Some(_) => true,
        None => false,
    }
}

fn is_other_verdict(line: &[u8]) -> bool
    ensures { IsTrue result
        ↔ (BeginsWith (codes "verdict ") line.now × (line.now ≢ codes "verdict satisfied 0")) }
{
    if !begins_with(line, b"verdict ") {
        return false;
    }
    !is_same(line, b"verdict satisfied 0")
}

fn has_other_verdict(bytes: &[u8]) -> bool
    ensures { IsTrue result ↔ HasOtherVerdict bytes.now }
{
    match second(bytes) {
        Some((line, _)) => is_other_verdict(line),
        None => false,
    }
}

fn has_reductions(bytes: &[u8]) -> bool
    ensures { IsTrue result ↔ HasReductions bytes.now }
{
    match fourth(bytes) {
        Some(line) => begins_with(line, b"chain "),
        None => false,
    }
}

/// Whether line 2 is another verdict than `verdict satisfied 0`, or line 4 a chain with words.
pub(crate) fn is_unbuilt(bytes: &[u8]) -> bool
    ensures { IsTrue result ↔ IsUnbuilt bytes.now }
{
    has_other_verdict(bytes) || has_reductions(bytes)
}
