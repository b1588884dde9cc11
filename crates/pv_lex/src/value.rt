//! The values of numbers.
ghost use Rattle.std.specs.Prelude.{◌≡◌, ◌≤◌, ◌+◌, ◌*◌, ◌^◌, ◌<◌, length, drop, ◌∷◌, MatchOption};
ghost use Rattle.std.specs.List.{list_any};
ghost use Rattle.pv_lex.specs.Shapes.{is_one_of, decimal_prefixes, hex_prefixes, time_prefixes};
ghost use Rattle.pv_lex.specs.declared.token.Kind.TheVariants as k;
ghost use Rattle.pv_lex.specs.Values.{token_value, digit_value, is_silent, value_behind, unit_value, time_behind, base_of, body_magnitude, magnitude, is_negative, number_value, fitting_value, runs_fit, with_byte, with_run_byte};

use crate::class::Class;
use crate::scan::{begins, word_len};
use crate::token::Kind;
use crate::words::{is_decimal_prefix, is_hex_prefix, is_time_prefix};

/// The value of a number, or none where it has more than 64 bits.
#[tactic(auto, unfolding(crate::specs::Values::number_value))]
pub fn value_of(bytes: &[u8]) -> Option<i128>
    ensures { MatchOption result (2 ^ 64 ≤ magnitude bytes.now)
        (λ v. (magnitude bytes.now < 2 ^ 64) × (v ≡ number_value bytes.now)) }
{
    let size = i128::from(magnitude(bytes)?);
    if is_negative(bytes) {
        Some(-size)
    } else {
        Some(size)
    }
}

/// The value of a token of this kind and of these bytes: that of a number, of a duration in
/// milliseconds; 0 for every other kind, and for a number of more than 64 bits, which is no token.
pub fn token_value(kind: Kind, bytes: &[u8]) -> i128
    ensures { result ≡ token_value kind bytes.now }
{
    match kind {
        Kind::Number => value_or_none(bytes),
        Kind::Word | Kind::Quoted | Kind::Real | Kind::Address | Kind::Sign | Kind::End => 0,
    }
}

/// The value of a number, or 0 where it has more than 64 bits.
fn value_or_none(bytes: &[u8]) -> i128
    ensures { result ≡ token_value k.Number bytes.now }
{
    match value_of(bytes) {
        Some(value) => value,
        None => 0,
    }
}

/// Whether a minus sign stands in the number.
fn is_negative(bytes: &[u8]) -> bool
    ensures { result ≡ is_negative bytes.now }
{
    bytes.iter().any(|byte| *byte == b'-')
}

/// The magnitude of a number, or none where it has more than 64 bits.
#[tactic(auto, unfolding(crate::specs::Values::magnitude))]
fn magnitude(bytes: &[u8]) -> Option<u64>
    ensures { MatchOption result (2 ^ 64 ≤ magnitude bytes.now) (λ v. v ≡ magnitude bytes.now) }
{
    let (prefix, rest) = bytes.split_at(word_len(bytes));
    if !begins(Class::Byte(b'#'), rest) {
        return digits_value(10, bytes);
    }
    let (_hash, body) = rest.split_at(1);
    body_value(prefix, body)
}

/// The magnitude of a number by the word before its `#` and what stands behind it.
#[tactic(auto, unfolding(crate::specs::Values::body_magnitude))]
fn body_value(prefix: &[u8], body: &[u8]) -> Option<u64>
    ensures { MatchOption result (2 ^ 64 ≤ body_magnitude prefix.now body.now)
        (λ v. v ≡ body_magnitude prefix.now body.now) }
{
    if is_time_prefix(prefix) {
        return time_value(body);
    }
    if is_decimal_prefix(prefix) {
        return digits_value(10, body);
    }
    if is_hex_prefix(prefix) {
        return digits_value(16, behind_base(body));
    }
    digits_value(base_of(prefix), body)
}

/// What stands behind the `16#` of a typed number.
fn behind_base(body: &[u8]) -> &[u8]
    ensures { result.now ≡ drop 3 body.now }
{
    let (_base, digits) = body.split_at(body.len().min(3));
    digits
}

/// The base that the digits before a `#` name.
fn base_of(digits: &[u8]) -> u64
    ensures { result ≡ base_of digits.now }
{
    if begins(Class::Byte(b'2'), digits) {
        2
    } else if begins(Class::Byte(b'8'), digits) {
        8
    } else {
        16
    }
}

/// The number that decimal digits make, or 0 where it has more than 64 bits, as no token's has.
pub fn fitting_value(digits: &[u8]) -> u64
    ensures { result ≡ fitting_value digits.now }
{
    match digits_value(10, digits) {
        Some(value) => value,
        None => 0,
    }
}

/// The number that the digits of this base make, or none where it has more than 64 bits.
fn digits_value(base: u64, digits: &[u8]) -> Option<u64>
    requires low { 0 < base }
    requires high { base ≤ 16 }
    ensures { MatchOption result (2 ^ 64 ≤ value_behind base 0 digits.now)
        (λ v. v ≡ value_behind base 0 digits.now) }
{
    let mut value = 0u64;
    for byte in digits {
        let Some(next) = with_byte(base, value, *byte) else {
            return None;
        };
        value = next;
    }
    Some(value)
}

/// The number with a digit behind it, or the number itself where the byte is no digit. None where
/// it has more than 64 bits.
#[inline(always)]
fn with_byte(base: u64, value: u64, byte: u8) -> Option<u64>
    requires low { 0 < base }
    requires high { base ≤ 16 }
    ensures { MatchOption result (2 ^ 64 ≤ with_byte base value byte)
        (λ v. v ≡ with_byte base value byte) }
{
    if is_silent(byte) {
        return Some(value);
    }
    value.checked_mul(base)?.checked_add(digit_value(byte))
}

/// Whether the byte stands in a number and isn't a digit.
#[inline(always)]
fn is_silent(byte: u8) -> bool
    ensures { result ≡ is_silent byte }
{
    byte == b'_' || byte == b'+' || byte == b'-'
}

/// The number that a digit stands for.
#[inline(always)]
fn digit_value(byte: u8) -> u64
    ensures { result ≡ digit_value byte }
{
    if byte < b'A' {
        u64::from(byte.saturating_sub(b'0'))
    } else if byte < b'a' {
        u64::from(byte.saturating_sub(b'7'))
    } else {
        u64::from(byte.saturating_sub(b'W'))
    }
}

/// What a reader of a duration knows: the milliseconds of the parts before, and the digits since.
#[derive(Clone, Copy)]
struct Clock {
    sum: u64,
    number: u64,
}

/// The milliseconds of the parts of a duration, or none where they have more than 64 bits.
fn time_value(body: &[u8]) -> Option<u64>
    ensures { MatchOption result (2 ^ 64 ≤ time_behind 0 body.now)
        (λ v. v ≡ time_behind 0 body.now) }
{
    let mut clock = Clock { sum: 0, number: 0 };
    let mut rest = body;
    while !rest.is_empty() {
        let (_first, others) = rest.split_at(1);
        clock = with_time_byte(clock, rest[0], others)?;
        rest = others;
    }
    clock.sum.checked_add(clock.number)
}

/// What is known behind the byte, which stands before the others.
fn with_time_byte(clock: Clock, byte: u8, others: &[u8]) -> Option<Clock>
    ensures { MatchOption result (2 ^ 64 ≤ clock.sum + time_behind clock.number (byte ∷ others.now))
        (λ next. next.sum + time_behind next.number others.now
        ≡ clock.sum + time_behind clock.number (byte ∷ others.now)) }
{
    if is_silent(byte) {
        return Some(clock);
    }
    if byte.is_ascii_digit() {
        let Some(number) = with_byte(10, clock.number, byte) else {
            return None;
        };
        return Some(Clock {
            sum: clock.sum,
            number,
        });
    }
    let part = clock.number.checked_mul(unit_value(byte, others))?;
    let sum = clock.sum.checked_add(part)?;
    Some(Clock { sum, number: 0 })
}

/// The milliseconds of the unit of this letter.
fn unit_value(byte: u8, others: &[u8]) -> u64
    ensures { result ≡ unit_value byte others.now }
{
    if byte == b'D' || byte == b'd' {
        86_400_000
    } else if byte == b'H' || byte == b'h' {
        3_600_000
    } else if (byte == b'M' || byte == b'm') && begins(Class::Either(b'S', b's'), others) {
        1
    } else if byte == b'M' || byte == b'm' {
        60_000
    } else {
        1_000
    }
}

/// Whether each run of decimal digits is a number of at most 64 bits.
pub fn do_runs_fit(bytes: &[u8]) -> bool
    ensures { result ≡ runs_fit 0 bytes.now }
{
    let mut value = 0u64;
    for byte in bytes {
        let Some(next) = with_run_byte(value, *byte) else {
            return false;
        };
        value = next;
    }
    true
}

/// The number of the digits up to the byte since the last one that is no digit, or none where it
/// has more than 64 bits.
fn with_run_byte(value: u64, byte: u8) -> Option<u64>
    ensures { MatchOption result (2 ^ 64 ≤ with_run_byte value byte)
        (λ v. v ≡ with_run_byte value byte) }
{
    if byte.is_ascii_digit() {
        value.checked_mul(10)?.checked_add(digit_value(byte))
    } else {
        Some(0)
    }
}
