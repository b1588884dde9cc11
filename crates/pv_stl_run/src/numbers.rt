//! Numbers of accumulators, and condition codes.

ghost use Rattle.std.specs.Prelude.{◌≡◌, ◌<◌, pos, neg_ℤ, ◌<ℤ◌, ◌≤ℤ◌};
ghost use Rattle.pv_mean.specs.Accumulators as m;
ghost use Rattle.pv_stl_run.specs.Views.{part_of, codes_of};

use crate::registers::Codes;
use pv_eval::{OneOp, one, pattern};
use pv_word::Ty;

/// The low word of an accumulator, or the whole.
#[derive(Clone, Copy)]
pub enum Part {
    Low,
    Whole,
}

impl Part {
    /// The type of its numbers with a sign.
    pub(crate) fn signed(self) -> Ty
        ensures { result ≡ m.signed (part_of self) }
    {
        match self {
            Part::Low => Ty::Int,
            Part::Whole => Ty::Dint,
        }
    }

    /// The type of its numbers without a sign.
    pub(crate) fn unsigned(self) -> Ty
        ensures { result ≡ m.unsigned (part_of self) }
    {
        match self {
            Part::Low => Ty::Word,
            Part::Whole => Ty::Dword,
        }
    }
}

/// The number of an accumulator's part, with its sign.
pub(crate) fn number(part: Part, v: i64) -> i64
    ensures value { result ≡ m.number (part_of part) v }
    ensures low { neg_ℤ (pos 2147483648) ≤ℤ result }
    ensures high { result <ℤ pos 2147483648 }
{
    one(OneOp::Wrap, part.signed(), v)
}

/// The number of a high and a low word.
pub(crate) fn of_words(high: u64, lower: u64) -> i64
    requires high { high < 65536 }
    requires lower { lower < 65536 }
    ensures { result ≡ m.of_words high lower }
{
    (high * 65536 + lower) as i64
}

/// An accumulator whose part takes a number's bits; a low word leaves the high one.
pub(crate) fn put(part: Part, a: i64, v: i64) -> i64
    ensures { result ≡ m.put (part_of part) a v }
{
    match part {
        Part::Low => of_words(pattern(Ty::Dword, a) / 65536, pattern(Ty::Word, v)),
        Part::Whole => one(OneOp::Wrap, Ty::Dword, v),
    }
}

/// CC1 and CC0 by a number: 00 for zero, 01 for one below, 10 for one above.
pub(crate) fn codes_by(ov: bool, n: i64) -> Codes
    ensures { codes_of result ≡ m.codes_by ov n }
{
    Codes {
        ov: Some(ov),
        cc1: Some(0 < n),
        cc0: Some(n < 0),
    }
}

/// CC1 for a result that isn't 0; CC0 and OV are 0.
pub(crate) fn codes_of_pattern(n: i64) -> Codes
    ensures { codes_of result ≡ m.codes_of_pattern n }
{
    Codes {
        ov: Some(false),
        cc1: Some(n != 0),
        cc0: Some(false),
    }
}

/// Whether the type doesn't hold the number.
pub(crate) fn overflows(ty: Ty, n: i64) -> bool
    ensures { result ≡ m.overflows ty n }
{
    one(OneOp::Wrap, ty, n) != n
}
