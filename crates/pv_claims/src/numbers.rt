//! Numbers in decimal digits, without needless zeros or signs.
ghost use Rattle.std.specs.Prelude.{◌≡◌, ℕ, ℤ, ◌^◌, ◌<◌, ◌++◌, IfSome, IfNone, IsTrue, ◌↔◌, FitsSigned};
ghost use Rattle.std.specs.Fmt.{decimal, signed_decimal};
ghost use Rattle.std.specs.Int.{w128};

use crate::lines::strip;
use itoa::Buffer;

/// The number that a text of decimal digits parses to, if it fits 64 bits.
fn parsed(text: &[u8]) -> Option<u64>
    ensures none { IfNone result ((n : ℕ) → n < 2 ^ 64 → text.now ≡ decimal n → ⊥) }
    ensures value { IfSome result (λ value. (n : ℕ) → n < 2 ^ 64 → text.now ≡ decimal n
        → value ≡ n) }
{
    let text = str::from_utf8(text).ok()?;
    u64::from_str_radix(text, 10).ok()
}

/// Whether the text is that of this number.
fn is_text_of(text: &[u8], n: u64) -> bool
    ensures { IsTrue result ↔ (text.now ≡ decimal n) }
{
    let mut buffer = Buffer::new();
    text == buffer.format(n).as_bytes()
}

/// The number of 64 bits whose text this is.
pub(crate) fn wide_number(text: &[u8]) -> Option<u64>
    ensures found { IfSome result (λ n. text.now ≡ decimal n) }
    ensures none { IfNone result ((n : ℕ) → n < 2 ^ 64 → text.now ≡ decimal n → ⊥) }
{
    let n = parsed(text)?;
    if is_text_of(text, n) { Some(n) } else { None }
}

/// The number of 32 bits whose text this is.
pub fn number(text: &[u8]) -> Option<u32>
    ensures found { IfSome result (λ n. text.now ≡ decimal n) }
    ensures none { IfNone result ((n : ℕ) → n < 2 ^ 32 → text.now ≡ decimal n → ⊥) }
{
    let n = wide_number(text)?;
    if n <= u32::MAX as u64 {
        Some(n as u32)
    } else {
        None
    }
}

/// The number of 32 bits behind a prefix.
pub fn number_behind(text: &[u8], prefix: &[u8]) -> Option<u32>
    ensures found { IfSome result (λ n. text.now ≡ prefix.now ++ decimal n) }
    ensures none { IfNone result ((n : ℕ) → n < 2 ^ 32 → text.now ≡ prefix.now ++ decimal n → ⊥) }
{
    let rest = strip(text, prefix)?;
    number(rest)
}

/// The number of 64 bits behind a prefix.
pub(crate) fn wide_number_behind(text: &[u8], prefix: &[u8]) -> Option<u64>
    ensures found { IfSome result (λ n. text.now ≡ prefix.now ++ decimal n) }
    ensures none { IfNone result ((n : ℕ) → n < 2 ^ 64 → text.now ≡ prefix.now ++ decimal n → ⊥) }
{
    let rest = strip(text, prefix)?;
    wide_number(rest)
}

/// The value that a text of decimal digits parses to, if it fits 128 bits.
fn parsed_value(text: &[u8]) -> Option<i128>
    ensures none { IfNone result ((v : ℤ) → FitsSigned w128 v → text.now ≡ signed_decimal v → ⊥) }
    ensures value { IfSome result (λ value. (v : ℤ) → FitsSigned w128 v
        → text.now ≡ signed_decimal v → value ≡ v) }
{
    let text = str::from_utf8(text).ok()?;
    i128::from_str_radix(text, 10).ok()
}

/// Whether the text is that of this value.
fn is_text_of_value(text: &[u8], value: i128) -> bool
    ensures { IsTrue result ↔ (text.now ≡ signed_decimal value) }
{
    let mut buffer = Buffer::new();
    text == buffer.format(value).as_bytes()
}

/// The value of 128 bits whose text this is.
pub(crate) fn value(text: &[u8]) -> Option<i128>
    ensures found { IfSome result (λ v. text.now ≡ signed_decimal v) }
    ensures none { IfNone result ((v : ℤ) → FitsSigned w128 v → text.now ≡ signed_decimal v → ⊥) }
{
    let v = parsed_value(text)?;
    if is_text_of_value(text, v) {
        Some(v)
    } else {
        None
    }
}
