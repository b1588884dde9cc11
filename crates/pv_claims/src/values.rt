//! The values of a line.
ghost use Rattle.std.specs.Prelude.{◌≡◌, ℕ, ℤ, List, ◌∷◌, ◌++◌, codes, IfOk, IfSome, IfNone, MatchOption, FitsSigned};
ghost use Rattle.std.specs.Fmt.{signed_decimal};
ghost use Rattle.std.specs.Int.{w128};
ghost use Rattle.pv_claims.specs.Lines.{NoFeed};
ghost use Rattle.pv_claims.specs.Words.{EndsWord};
ghost use Rattle.pv_claims.specs.TracePart.{AllFit, values_text};

use crate::lines::{cut_line, strip};
use crate::numbers::value;
use crate::trace::CellValues;
use crate::words::cut_word;
use std::alloc::{AllocError, Global};

/// The value behind a blank, and what follows it.
fn value_at(text: &[u8]) -> Option<(i128, &[u8])>
    ensures found { IfSome result (λ cut. EndsWord cut.1.now
        × (text.now ≡ codes " " ++ signed_decimal cut.0 ++ cut.1.now)) }
    ensures none { IfNone result ((v : ℤ) (after : List ℕ) → FitsSigned w128 v → EndsWord after
        → text.now ≡ codes " " ++ signed_decimal v ++ after → ⊥) }
{
    let rest = strip(text, b" ")?;
    let (word, after) = cut_word(rest);
    let v = value(word)?;
    Some((v, after))
}

/// The values that the text lists.
fn values(alloc: Global, text: &[u8]) -> Result<Option<CellValues>, AllocError>
    ensures { IfOk result (λ found. MatchOption found
        ((others : List ℤ) → AllFit others → text.now ≡ values_text others → ⊥)
        (λ values. AllFit values × (text.now ≡ values_text values))) }
{
    let mut values = CellValues::new(alloc);
    let mut rest = text;
    while !rest.is_empty() {
        let Some((v, after)) = value_at(rest) else {
            return Ok(None);
        };
        values.push(v)?;
        rest = after;
    }
    Ok(Some(values))
}

/// The values behind the word of a line.
fn values_behind(alloc: Global, line: &[u8], word: &[u8]) -> Result<Option<CellValues>, AllocError>
    ensures { IfOk result (λ found. MatchOption found
        ((others : List ℤ) → AllFit others → line.now ≡ word.now ++ values_text others → ⊥)
        (λ values. AllFit values × (line.now ≡ word.now ++ values_text values))) }
{
    match strip(line, word) {
        Some(rest) => values(alloc, rest),
        None => Ok(None),
    }
}

/// The values behind the word of the first line, and what follows that.
pub(crate) fn values_line<'a>(
    alloc: Global,
    text: &'a [u8],
    word: &[u8],
) -> Result<Option<(CellValues, &'a [u8])>, AllocError>
    requires { NoFeed word.now }
    ensures { IfOk result (λ found. MatchOption found
        ((others : List ℤ) (after : List ℕ) → AllFit others
        → text.now ≡ (word.now ++ values_text others) ++ 10 ∷ after → ⊥)
        (λ cut. AllFit cut.0 × (text.now ≡ (word.now ++ values_text cut.0) ++ 10 ∷ cut.1.now))) }
{
    let Some((line, after)) = cut_line(text) else {
        return Ok(None);
    };
    match values_behind(alloc, line, word)? {
        Some(values) => Ok(Some((values, after))),
        None => Ok(None),
    }
}
