//! The values of a line.
ghost use Rattle.std.specs.Prelude.{◌≡◌, ◌⊎◌, ℕ, ℤ, List, [], ◌∷◌, ◌++◌, IfSome, IfNone, IfOk, MatchOption, IsTrue, ◌↔◌};
ghost use Rattle.std.specs.List.{AllByRecursion};
ghost use Rattle.std.specs.Fmt.{signed_decimal};
ghost use Rattle.pv_place.specs.Ranges.{IsWithin};
ghost use Rattle.pv_trace.specs.TraceText.{value_text, values_text, range_between, AreBetween, IsRange};
ghost use Rattle.pv_trace.specs.Words.{NoBlank, IsWordEnd};

use itoa::Buffer;
use pv_claims::CellValues;
use std::alloc::{AllocError, Global};

/// The bytes before the first blank, and those from it on.
fn cut_word(text: &[u8]) -> (&[u8], &[u8])
    ensures split { text.now ≡ result.0.now ++ result.1.now }
    ensures word { NoBlank result.0.now }
    ensures end { IsWordEnd result.1.now }
{
    for (at, byte) in text.iter().enumerate() {
        if *byte == b' ' {
            return text.split_at(at);
        }
    }
    text.split_at(text.len())
}

/// The number that a text parses to, if it fits 64 bits.
fn parsed(text: &[u8]) -> Option<i64>
    ensures none { IfNone result ((range : ℤ × ℤ) (v : ℤ) → IsRange range → IsWithin (range_between range) v
        → text.now ≡ signed_decimal v → ⊥) }
    ensures value { IfSome result (λ value. (range : ℤ × ℤ) (v : ℤ) → IsRange range → IsWithin (range_between range) v
        → text.now ≡ signed_decimal v → value ≡ v) }
{
    let text = str::from_utf8(text).ok()?;
    i64::from_str_radix(text, 10).ok()
}

/// Whether the text is that of this number.
fn is_text_of(text: &[u8], n: i64) -> bool
    ensures { IsTrue result ↔ (text.now ≡ signed_decimal n) }
{
    let mut buffer = Buffer::new();
    text == buffer.format(n).as_bytes()
}

/// The number whose text this is, without needless zeros or signs.
fn number(text: &[u8]) -> Option<i64>
    ensures found { IfSome result (λ n. text.now ≡ signed_decimal n) }
    ensures none { IfNone result ((range : ℤ × ℤ) (v : ℤ) → IsRange range → IsWithin (range_between range) v
        → text.now ≡ signed_decimal v → ⊥) }
{
    let n = parsed(text)?;
    if is_text_of(text, n) { Some(n) } else { None }
}

/// What follows the prefix, where the text begins with it.
pub(crate) fn strip<'a>(text: &'a [u8], prefix: &[u8]) -> Option<&'a [u8]>
    ensures found { IfSome result (λ rest. text.now ≡ prefix.now ++ rest.now) }
    ensures none { IfNone result ((rest : List ℕ) → text.now ≡ prefix.now ++ rest → ⊥) }
{
    text.strip_prefix(prefix)
}

/// Whether a value lies between these two.
fn is_between(value: i64, bounds: &(i128, i128)) -> bool
    ensures { IsTrue result ↔ IsWithin (range_between bounds.now) value }
{
    let value = value as i128;
    bounds.0 <= value && value <= bounds.1
}

/// The value of the first word of a text, if it lies between these two, and what follows the word: nothing, or a blank.
fn word_between<'a>(text: &'a [u8], bounds: &(i128, i128)) -> Option<(i64, &'a [u8])>
    requires { IsRange bounds.now }
    ensures found { IfSome result (λ found. IsWithin (range_between bounds.now) found.0
        × (text.now ≡ signed_decimal found.0 ++ found.1.now) × IsWordEnd found.1.now) }
    ensures none { IfNone result ((v : ℤ) (rest : List ℕ) → IsWithin (range_between bounds.now) v
        → IsWordEnd rest → text.now ≡ signed_decimal v ++ rest → ⊥) }
{
    let (word, rest) = cut_word(text);
    let value = number(word)?;
    if is_between(value, bounds) {
        Some((value, rest))
    } else {
        None
    }
}

/// A blank and a value between these two at the front of the text, and what follows them.
fn value_at<'a>(text: &'a [u8], bounds: &(i128, i128)) -> Option<(i64, &'a [u8])>
    requires { IsRange bounds.now }
    ensures found { IfSome result (λ found. IsWithin (range_between bounds.now) found.0
        × (text.now ≡ value_text found.0 ++ found.1.now) × IsWordEnd found.1.now) }
    ensures none { IfNone result ((v : ℤ) (rest : List ℕ) → IsWithin (range_between bounds.now) v
        → IsWordEnd rest → text.now ≡ value_text v ++ rest → ⊥) }
{
    let rest = strip(text, b" ")?;
    word_between(rest, bounds)
}

/// The values that a text has, one of each range, a blank before each.
pub(crate) fn values_at(
    alloc: Global,
    text: &[u8],
    ranges: &[(i128, i128)],
) -> Result<Option<CellValues>, AllocError>
    requires { AllByRecursion IsRange ranges.now }
    ensures { IfOk result (λ found. MatchOption found
        ((values : List ℤ) → AreBetween ranges.now values → text.now ≡ values_text values → ⊥)
        (λ values. AreBetween ranges.now values × (text.now ≡ values_text values))) }
{
    let mut values = CellValues::new(alloc);
    let mut rest = text;
    for bounds in ranges {
        let Some((value, after)) = value_at(rest, bounds) else {
            return Ok(None);
        };
        values.push(value as i128)?;
        rest = after;
    }
    if rest.is_empty() {
        Ok(Some(values))
    } else {
        Ok(None)
    }
}
