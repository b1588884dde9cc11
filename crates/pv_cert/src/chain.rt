//! The words of a chain's line.
ghost use Rattle.std.specs.Prelude.{◌≡◌, ℕ, ◌^◌, ◌<◌, ◌≤◌, false, Bool, List, [], ◌∷◌, ◌++◌, codes, IfOk, IfSome, IfNone, MatchOption};
ghost use Rattle.std.specs.Fmt.{decimal};
ghost use Rattle.pv_cert.specs.declared.proof.Chain.{Chain};
ghost use Rattle.pv_claims.specs.Words.{EndsWord};
ghost use Rattle.pv_cert.specs.ChainText.{constants_text, cells_text, havoc_text, cone_text, chain_line, RiseFrom, HasChainText};

use crate::proof::Chain;
use pv_claims::{cut_line, cut_word, number, strip};
use pv_log::Numbers;
use std::alloc::{AllocError, Global};

/// The number whose text this is, if it isn't below this one.
fn number_from(text: &[u8], least: u64) -> Option<u32>
    ensures found { IfSome result (λ n. (least ≤ n) × (text.now ≡ decimal n)) }
    ensures none { IfNone result ((n : ℕ) → least ≤ n → n < 2 ^ 32 → text.now ≡ decimal n → ⊥) }
{
    let n = number(text)?;
    if least <= n as u64 { Some(n) } else { None }
}

/// The cell behind a blank, if its number isn't below this one, and what follows it.
fn cell_at(text: &[u8], least: u64) -> Option<(u32, &[u8])>
    ensures found { IfSome result (λ cut. (least ≤ cut.0) × EndsWord cut.1.now
        × (text.now ≡ codes " " ++ decimal cut.0 ++ cut.1.now)) }
    ensures none { IfNone result ((cell : ℕ) (after : List ℕ) → least ≤ cell → cell < 2 ^ 32
        → EndsWord after → text.now ≡ codes " " ++ decimal cell ++ after → ⊥) }
{
    let rest = strip(text, b" ")?;
    let (word, after) = cut_word(rest);
    let cell = number_from(word, least)?;
    Some((cell, after))
}

/// The rising cells that the text lists.
fn cells(alloc: Global, text: &[u8]) -> Result<Option<Numbers>, AllocError>
    ensures { IfOk result (λ cells. MatchOption cells
        ((others : List ℕ) → RiseFrom 0 others → text.now ≡ cells_text others → ⊥)
        (λ cells. RiseFrom 0 cells × (text.now ≡ cells_text cells))) }
{
    let mut cells = Numbers::new(alloc);
    let mut least = 0u64;
    let mut rest = text;
    while !rest.is_empty() {
        let Some((cell, after)) = cell_at(rest, least) else {
            return Ok(None);
        };
        cells.push(cell)?;
        least = cell as u64 + 1;
        rest = after;
    }
    Ok(Some(cells))
}

/// The cells behind the word `havoc`, or none where nothing stands there.
fn havoc(alloc: Global, text: &[u8]) -> Result<Option<Numbers>, AllocError>
    ensures { IfOk result (λ cells. MatchOption cells
        ((others : List ℕ) → RiseFrom 0 others → text.now ≡ havoc_text others → ⊥)
        (λ cells. RiseFrom 0 cells × (text.now ≡ havoc_text cells))) }
{
    if text.is_empty() {
        return Ok(Some(Numbers::new(alloc)));
    }
    match strip(text, b" havoc") {
        Some(rest) if !rest.is_empty() => cells(alloc, rest),
        _ => Ok(None),
    }
}

/// What stands before the last word `cone`, and whether there is that word.
fn cut_cone(text: &[u8]) -> (&[u8], bool)
    ensures cut { text.now ≡ result.0.now ++ cone_text result.1 }
    ensures none { result.1 ≡ false → (front : List ℕ) → text.now ≡ front ++ codes " cone" → ⊥ }
{
    match text.strip_suffix(b" cone") {
        Some(front) => (front, true),
        None => (text, false),
    }
}

/// Whether the word `constants` stands behind `chain`, and what follows.
fn cut_constants(text: &[u8]) -> Option<(bool, &[u8])>
    ensures found { IfSome result (λ cut.
        text.now ≡ codes "chain" ++ constants_text cut.0 ++ cut.1.now) }
    ensures longest { IfSome result (λ cut. cut.0 ≡ false → (rest : List ℕ)
        → text.now ≡ codes "chain constants" ++ rest → ⊥) }
    ensures none { IfNone result ((is_there : Bool) (rest : List ℕ)
        → text.now ≡ codes "chain" ++ constants_text is_there ++ rest → ⊥) }
{
    if let Some(rest) = strip(text, b"chain constants") {
        return Some((true, rest));
    }
    let rest = strip(text, b"chain")?;
    Some((false, rest))
}

/// The chain whose line this is.
fn chain(alloc: Global, text: &[u8]) -> Result<Option<Chain>, AllocError>
    ensures { IfOk result (λ chain. MatchOption chain
        ((other : Chain) → HasChainText other → text.now ≡ chain_line other → ⊥)
        (λ chain. HasChainText chain × (text.now ≡ chain_line chain))) }
{
    let (front, cone) = cut_cone(text);
    let Some((constants, rest)) = cut_constants(front) else {
        return Ok(None);
    };
    let Some(havoc) = havoc(alloc, rest)? else {
        return Ok(None);
    };
    Ok(Some(Chain {
        constants,
        havoc,
        cone,
    }))
}

/// The chain of the first line, and what follows that.
pub(crate) fn chain_line(alloc: Global, text: &[u8]) -> Result<Option<(Chain, &[u8])>, AllocError>
    ensures { IfOk result (λ found. MatchOption found
        ((other : Chain) (after : List ℕ) → HasChainText other
        → text.now ≡ chain_line other ++ 10 ∷ after → ⊥)
        (λ cut. HasChainText cut.0 × (text.now ≡ chain_line cut.0 ++ 10 ∷ cut.1.now))) }
{
    let Some((line, after)) = cut_line(text) else {
        return Ok(None);
    };
    match chain(alloc, line)? {
        Some(chain) => Ok(Some((chain, after))),
        None => Ok(None),
    }
}
