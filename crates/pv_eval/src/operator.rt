//! Operators and functions on numbers of 64 bits, wrapped to their types. Most results need no wrapping, which a comparison
//! finds; the others go by whole numbers.
ghost use Rattle.std.specs.Prelude.{◌≡◌, ◌≢◌, ◌<◌, ◌≤◌, ◌^◌, pos, ◌+ℤ◌, ◌-ℤ◌, ◌*ℤ◌, IsTrue};
ghost use Rattle.pv_word.specs.Types.{width_of, InRange, wrap_of, pattern_of, and_of, or_of, xor_of, not_of, shl_of, shr_of};
ghost use Rattle.pv_word.specs.Division.{quotient, remainder};
ghost use Rattle.pv_mean.specs.Values.{number_of, divided, lesser, greater};
ghost use Rattle.pv_word.specs.declared.types.Ty.TheVariants.{Bool};
ghost use Rattle.pv_eval.specs.Operators.{IsBit, one_result, two_result, three_result};
ghost use Rattle.pv_eval.specs.Traps.{tried};

use crate::node::{OneOp, ThreeOp, TwoOp};
use crate::trap::Trap;
use pv_place::{Place, TrapKind};
use pv_word::{Ty, width, wrap};

/// Whether the number is a value of the type.
fn fits(ty: Ty, n: i64) -> bool
    ensures { IsTrue result → InRange ty n }
{
    match ty {
        Ty::Bool => 0 <= n && n <= 1,
        Ty::Byte => 0 <= n && n <= 255,
        Ty::Word => 0 <= n && n <= 65535,
        Ty::Dword => 0 <= n && n <= 4294967295,
        Ty::Int => -32768 <= n && n <= 32767,
        Ty::Dint | Ty::Time => -2147483648 <= n && n <= 2147483647,
    }
}

/// A whole number, wrapped to the type.
fn wrapped(ty: Ty, n: i128) -> i64
    ensures { result ≡ wrap_of ty n }
{
    wrap(ty, n) as i64
}

/// A number of 64 bits, wrapped to the type.
pub(crate) fn kept(ty: Ty, n: i64) -> i64
    ensures { result ≡ wrap_of ty n }
{
    if fits(ty, n) {
        n
    } else {
        wrapped(ty, i128::from(n))
    }
}

fn add(ty: Ty, a: i64, b: i64) -> i64
    ensures { result ≡ wrap_of ty (a +ℤ b) }
{
    match a.checked_add(b) {
        Some(n) => kept(ty, n),
        None => wrapped(ty, i128::from(a) + i128::from(b)),
    }
}

fn sub(ty: Ty, a: i64, b: i64) -> i64
    ensures { result ≡ wrap_of ty (a -ℤ b) }
{
    match a.checked_sub(b) {
        Some(n) => kept(ty, n),
        None => wrapped(ty, i128::from(a) - i128::from(b)),
    }
}

fn mul(ty: Ty, a: i64, b: i64) -> i64
    ensures { result ≡ wrap_of ty (a *ℤ b) }
{
    match a.checked_mul(b) {
        Some(n) => kept(ty, n),
        None => wrapped(ty, i128::from(a) * i128::from(b)),
    }
}

fn quotient(a: i64, b: i64) -> i128
    requires { b ≢ pos 0 }
    ensures { result ≡ quotient a b }
{
    i128::from(a) / i128::from(b)
}

fn div(ty: Ty, place: Place, a: i64, b: i64) -> Result<i64, Trap>
    ensures { tried result ≡ divided place b (wrap_of ty (quotient a b)) }
{
    if b == 0 {
        return Err(Trap {
            kind: TrapKind::DivideByZero,
            place,
        });
    }
    Ok(wrapped(ty, quotient(a, b)))
}

fn rem(ty: Ty, place: Place, a: i64, b: i64) -> Result<i64, Trap>
    ensures { tried result ≡ divided place b (wrap_of ty (remainder a b)) }
{
    if b == 0 {
        return Err(Trap {
            kind: TrapKind::DivideByZero,
            place,
        });
    }
    Ok(wrapped(ty, i128::from(a) % i128::from(b)))
}

/// How many values the type has.
fn modulus(ty: Ty) -> u64
    ensures value { result ≡ 2 ^ width_of ty }
    ensures small { result ≤ 2 ^ 32 }
{
    1 << width(ty)
}

/// The bits of a value of the type.
fn bits_of(ty: Ty, own: i64) -> u64
    requires { InRange ty own }
    ensures { result ≡ pattern_of ty own }
{
    if own < 0 {
        (own + modulus(ty) as i64) as u64
    } else {
        own as u64
    }
}

/// The bits of the number as a value of the type.
pub fn pattern(ty: Ty, a: i64) -> u64
    ensures value { result ≡ pattern_of ty a }
    ensures short { result < 2 ^ 32 }
{
    if 0 <= a && fits(ty, a) {
        a as u64
    } else {
        bits_of(ty, kept(ty, a))
    }
}

/// The value of the type that has these bits as its lowest.
pub(crate) fn packed(ty: Ty, n: u64) -> i64
    requires { n < 2 ^ 63 }
    ensures { result ≡ wrap_of ty (pos n) }
{
    kept(ty, n as i64)
}

/// Whether the number is 0 or 1. On these what works bit by bit needs no look at the type.
fn is_bit(a: i64) -> bool
    ensures { IsTrue result → IsBit a }
{
    0 <= a && a <= 1
}

fn is_bool(ty: Ty) -> bool
    ensures { IsTrue result → ty ≡ Bool }
{
    match ty {
        Ty::Bool => true,
        Ty::Byte | Ty::Word | Ty::Dword | Ty::Int | Ty::Dint | Ty::Time => false,
    }
}

fn and_wide(ty: Ty, a: i64, b: i64) -> i64
    ensures { result ≡ and_of ty a b }
{
    packed(ty, pattern(ty, a) & pattern(ty, b))
}

fn and(ty: Ty, a: i64, b: i64) -> i64
    ensures { result ≡ and_of ty a b }
{
    if is_bit(a) && is_bit(b) {
        lesser(a, b)
    } else {
        and_wide(ty, a, b)
    }
}

fn or_wide(ty: Ty, a: i64, b: i64) -> i64
    ensures { result ≡ or_of ty a b }
{
    packed(ty, pattern(ty, a) | pattern(ty, b))
}

fn or(ty: Ty, a: i64, b: i64) -> i64
    ensures { result ≡ or_of ty a b }
{
    if is_bit(a) && is_bit(b) {
        greater(a, b)
    } else {
        or_wide(ty, a, b)
    }
}

fn xor(ty: Ty, a: i64, b: i64) -> i64
    ensures { result ≡ xor_of ty a b }
{
    packed(ty, pattern(ty, a) ^ pattern(ty, b))
}

fn not_wide(ty: Ty, a: i64) -> i64
    ensures { result ≡ not_of ty a }
{
    packed(ty, modulus(ty) - (pattern(ty, a) + 1))
}

fn not(ty: Ty, a: i64) -> i64
    ensures { result ≡ not_of ty a }
{
    if is_bool(ty) && is_bit(a) {
        1 - a
    } else {
        not_wide(ty, a)
    }
}

fn shl(ty: Ty, a: i64, n: u64) -> i64
    ensures { result ≡ shl_of ty a n }
{
    if n < 32 {
        packed(ty, pattern(ty, a) << n)
    } else {
        0
    }
}

fn shr(ty: Ty, a: i64, n: u64) -> i64
    ensures { result ≡ shr_of ty a n }
{
    if n < 32 {
        packed(ty, pattern(ty, a) >> n)
    } else {
        0
    }
}

fn number_of(b: bool) -> i64
    ensures { result ≡ number_of b }
{
    if b { 1 } else { 0 }
}

fn lesser(a: i64, b: i64) -> i64
    ensures { result ≡ lesser a b }
{
    if a <= b { a } else { b }
}

fn greater(a: i64, b: i64) -> i64
    ensures { result ≡ greater a b }
{
    if a <= b { b } else { a }
}

/// What is made of one value.
pub fn one(op: OneOp, ty: Ty, a: i64) -> i64
    ensures { result ≡ one_result op ty a }
{
    match op {
        OneOp::Minus => wrapped(ty, -i128::from(a)),
        OneOp::Not => not(ty, a),
        OneOp::Wrap => kept(ty, a),
        OneOp::Abs => wrapped(ty, i128::from(a.unsigned_abs())),
    }
}

/// What is made of two values.
pub fn two(op: TwoOp, ty: Ty, place: Place, a: i64, b: i64) -> Result<i64, Trap>
    ensures { tried result ≡ two_result op ty place a b }
{
    match op {
        TwoOp::Mul => Ok(mul(ty, a, b)),
        TwoOp::Div => div(ty, place, a, b),
        TwoOp::Mod => rem(ty, place, a, b),
        TwoOp::Add => Ok(add(ty, a, b)),
        TwoOp::Sub => Ok(sub(ty, a, b)),
        TwoOp::Less => Ok(number_of(a < b)),
        TwoOp::Greater => Ok(number_of(b < a)),
        TwoOp::LessEqual => Ok(number_of(a <= b)),
        TwoOp::GreaterEqual => Ok(number_of(b <= a)),
        TwoOp::Equal => Ok(number_of(a == b)),
        TwoOp::NotEqual => Ok(number_of(a != b)),
        TwoOp::And => Ok(and(ty, a, b)),
        TwoOp::Xor => Ok(xor(ty, a, b)),
        TwoOp::Or => Ok(or(ty, a, b)),
        TwoOp::Min => Ok(lesser(a, b)),
        TwoOp::Max => Ok(greater(a, b)),
        TwoOp::Shl => Ok(shl(ty, a, b.unsigned_abs())),
        TwoOp::Shr => Ok(shr(ty, a, b.unsigned_abs())),
    }
}

/// What is made of three values.
pub fn three(op: ThreeOp, a: i64, b: i64, c: i64) -> i64
    ensures { result ≡ three_result op a b c }
{
    match op {
        ThreeOp::Limit => lesser(c, greater(a, b)),
        ThreeOp::Sel => if a == 1 { c } else { b },
    }
}
