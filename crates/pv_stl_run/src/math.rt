//! Integer math, comparisons, words bit by bit and shifts.

ghost use Rattle.std.specs.Prelude.{◌≡◌, ◌≢◌, pos, neg_ℤ, ◌≤ℤ◌, ◌-ℤ◌, ◌*ℤ◌, Some, IfOk, true, false};
ghost use Rattle.pv_word.specs.declared.types.Ty.TheVariants.{Word, Dword, Int};
ghost use Rattle.pv_word.specs.Types.{wrap_of, pattern_of};
ghost use Rattle.pv_word.specs.Division.{quotient, remainder};
ghost use Rattle.pv_mean.specs.Endings.{got};
ghost use Rattle.pv_mean.specs.Registers.{Registers, no_codes, resulting};
ghost use Rattle.pv_mean.specs.Accumulators as m;
ghost use Rattle.pv_eval.specs.Traps.{tried};
ghost use Rattle.pv_stl_run.specs.Views.{part_of, logic_of, codes_of};
ghost use Rattle.pv_stl_run.specs.Rows.{math_row, relation_of, combining_of, shift_of};
ghost use Rattle.pv_stl_run.specs.Made.{made_in};

use crate::instr::{Combining, Math, Relation, Shifting};
use crate::numbers::{Part, codes_by, number, of_words, overflows, put};
use crate::registers::{Codes, Logic, NO_CODES};
use pv_eval::{OneOp, Trap, TwoOp, one, pattern, two};
use pv_place::{Place, TrapKind};
use pv_word::Ty;

/// What an instruction makes of accumulators: ACCU1 and the condition codes.
#[derive(Clone, Copy)]
pub(crate) struct Made {
    pub accu: i64,
    pub codes: Codes,
}

/// The part of ACCU1 takes a number, wrapped.
fn wrapped(part: Part, a: i64, n: i64) -> Made
    ensures accu { result.accu ≡ m.put (part_of part) a n }
    ensures codes { codes_of result.codes
        ≡ m.codes_by (m.overflows (m.signed (part_of part)) n) (m.number (part_of part) n) }
{
    Made {
        accu: put(part, a, n),
        codes: codes_by(overflows(part.signed(), n), number(part, n)),
    }
}

/// The product of two numbers of accumulators.
fn times(part: Part, b: i64, a: i64) -> i64
    ensures { result ≡ m.number (part_of part) b *ℤ m.number (part_of part) a }
{
    number(part, b) * number(part, a)
}

/// `*I`.
fn product_of_words(b: i64, a: i64) -> Made
    ensures accu { result.accu ≡ wrap_of Dword (m.number m.low b *ℤ m.number m.low a) }
    ensures codes { codes_of result.codes
        ≡ m.codes_by (m.overflows Int (m.number m.low b *ℤ m.number m.low a))
        (m.number m.low b *ℤ m.number m.low a) }
{
    let n = times(Part::Low, b, a);
    Made {
        accu: one(OneOp::Wrap, Ty::Dword, n),
        codes: codes_by(overflows(Ty::Int, n), n),
    }
}

/// `*D`.
fn product(b: i64, a: i64) -> Made
    ensures accu { result.accu ≡ wrap_of Dword (m.number m.whole b *ℤ m.number m.whole a) }
    ensures codes { codes_of result.codes ≡ no_codes }
{
    Made {
        accu: one(OneOp::Wrap, Ty::Dword, times(Part::Whole, b, a)),
        codes: NO_CODES,
    }
}

fn codes_of_quotient(part: Part, q: i64) -> Codes
    ensures { codes_of result ≡ m.codes_of_quotient (part_of part) q }
{
    if overflows(part.signed(), q) {
        NO_CODES
    } else {
        codes_by(false, q)
    }
}

/// The quotient, where the divisor isn't 0.
fn quotient_of(b: i64, a: i64) -> i64
    requires divisor { a ≢ pos 0 }
    requires low { neg_ℤ (pos 2147483648) ≤ℤ b }
    ensures { result ≡ quotient b a }
{
    b / a
}

/// The remainder, where the divisor isn't 0.
fn remainder_of(b: i64, a: i64) -> i64
    requires divisor { a ≢ pos 0 }
    requires low { neg_ℤ (pos 2147483648) ≤ℤ b }
    ensures { result ≡ remainder b a }
{
    b % a
}

/// `/I`, where the divisor isn't 0.
fn quotient_of_words(b: i64, a: i64) -> Made
    requires divisor { a ≢ pos 0 }
    requires low { neg_ℤ (pos 2147483648) ≤ℤ b }
    ensures accu { result.accu
        ≡ m.of_words (pattern_of Word (remainder b a)) (pattern_of Word (quotient b a)) }
    ensures codes { codes_of result.codes ≡ m.codes_of_quotient m.low (quotient b a) }
{
    let q = quotient_of(b, a);
    Made {
        accu: of_words(pattern(Ty::Word, remainder_of(b, a)), pattern(Ty::Word, q)),
        codes: codes_of_quotient(Part::Low, q),
    }
}

/// `/D`, where the divisor isn't 0.
fn quotient_of_wholes(b: i64, a: i64) -> Made
    requires divisor { a ≢ pos 0 }
    requires low { neg_ℤ (pos 2147483648) ≤ℤ b }
    ensures accu { result.accu ≡ wrap_of Dword (quotient b a) }
    ensures codes { codes_of result.codes ≡ m.codes_of_quotient m.whole (quotient b a) }
{
    let q = quotient_of(b, a);
    Made {
        accu: one(OneOp::Wrap, Ty::Dword, q),
        codes: codes_of_quotient(Part::Whole, q),
    }
}

/// MOD, where the divisor isn't 0.
fn remainder_of_wholes(b: i64, a: i64) -> Made
    requires divisor { a ≢ pos 0 }
    requires low { neg_ℤ (pos 2147483648) ≤ℤ b }
    ensures accu { result.accu ≡ wrap_of Dword (remainder b a) }
    ensures codes { codes_of result.codes ≡ m.codes_by false (remainder b a) }
{
    let rest = remainder_of(b, a);
    Made {
        accu: one(OneOp::Wrap, Ty::Dword, rest),
        codes: codes_by(false, rest),
    }
}

/// A divisor of 0 traps.
fn divisor(part: Part, a: i64, place: Place) -> Result<i64, Trap>
    ensures value { tried result
        ≡ m.divided_by place (m.number (part_of part) a) (got (m.number (part_of part) a)) }
    ensures divisor { IfOk result (λ n. n ≢ pos 0) }
{
    let n = number(part, a);
    if n == 0 {
        return Err(Trap {
            kind: TrapKind::DivideByZero,
            place,
        });
    }
    Ok(n)
}

/// What integer math makes of ACCU2 and ACCU1.
pub(crate) fn calculated(op: Math, b: i64, a: i64, place: Place) -> Result<Made, Trap>
    ensures { (r : Registers) → r.accu2 ≡ Some b → r.accu1 ≡ Some a
        → made_in r result ≡ math_row op place r }
{
    match op {
        Math::Sum(part) => Ok(wrapped(part, a, number(part, b) + number(part, a))),
        Math::Difference(part) => Ok(wrapped(part, a, number(part, b) - number(part, a))),
        Math::ProductOfWords => Ok(product_of_words(b, a)),
        Math::Product => Ok(product(b, a)),
        Math::QuotientOfWords => match divisor(Part::Low, a, place) {
            Ok(n) => Ok(quotient_of_words(number(Part::Low, b), n)),
            Err(trap) => Err(trap),
        },
        Math::QuotientOfWholes => match divisor(Part::Whole, a, place) {
            Ok(n) => Ok(quotient_of_wholes(number(Part::Whole, b), n)),
            Err(trap) => Err(trap),
        },
        Math::RemainderOfWholes => match divisor(Part::Whole, a, place) {
            Ok(n) => Ok(remainder_of_wholes(number(Part::Whole, b), n)),
            Err(trap) => Err(trap),
        },
    }
}

/// Whether two numbers are so to each other.
fn is_so(relation: Relation, b: i64, a: i64) -> bool
    ensures { result ≡ relation_of relation b a }
{
    match relation {
        Relation::Equal => b == a,
        Relation::NotEqual => b != a,
        Relation::Greater => a < b,
        Relation::Less => b < a,
        Relation::GreaterEqual => a <= b,
        Relation::LessEqual => b <= a,
    }
}

/// What a comparison makes: the bits of the chain, and the condition codes.
#[derive(Clone, Copy)]
pub(crate) struct Comparison {
    pub logic: Logic,
    pub codes: Codes,
}

/// How the numbers of ACCU2 and ACCU1 are to each other.
pub(crate) fn compared(relation: Relation, part: Part, b: i64, a: i64) -> Comparison
    ensures logic { logic_of result.logic ≡ resulting true
        (relation_of relation (m.number (part_of part) b) (m.number (part_of part) a)) }
    ensures codes { codes_of result.codes
        ≡ m.codes_by false (m.number (part_of part) b -ℤ m.number (part_of part) a) }
{
    let (b, a) = (number(part, b), number(part, a));
    Comparison {
        logic: Logic::resulting(true, is_so(relation, b, a)),
        codes: codes_by(false, b - a),
    }
}

/// Two numbers, joined bit by bit.
pub(crate) fn combined(op: Combining, ty: Ty, place: Place, a: i64, b: i64) -> Result<i64, Trap>
    ensures { tried result ≡ got (combining_of op ty a b) }
{
    match op {
        Combining::And => two(TwoOp::And, ty, place, a, b),
        Combining::Or => two(TwoOp::Or, ty, place, a, b),
        Combining::Xor => two(TwoOp::Xor, ty, place, a, b),
    }
}

/// A number, shifted.
pub(crate) fn shifted(way: Shifting, ty: Ty, place: Place, a: i64, count: u32) -> Result<i64, Trap>
    ensures { tried result ≡ got (shift_of way ty a count) }
{
    match way {
        Shifting::Left => two(TwoOp::Shl, ty, place, a, i64::from(count)),
        Shifting::Right => two(TwoOp::Shr, ty, place, a, i64::from(count)),
    }
}
