//! The expressions of patterns with their names found: terms over visible cells, which go by their numbers.
//!
//! A pattern's expression neither traps nor reads a brief cell, so it has one number by the visible cells alone. It is found without
//! memory, by going down the term, which is as deep as the expression, 64 levels at most.
ghost use Rattle.std.specs.Prelude.{◌≡◌, ◌+◌, ◌<◌, ◌^◌, pos, All};
ghost use Rattle.pv_word.specs.Types.{pattern_of, bit_of};
ghost use Rattle.pv_word.specs.declared.types.Ty.TheVariants.{Byte as A_byte};
ghost use Rattle.pv_mean.specs.Frames.{visible_value};
ghost use Rattle.pv_mean.specs.Spots.{number_of_bytes};
ghost use Rattle.pv_eval.specs.Operators.{two_result};
ghost use Rattle.pv_pattern.specs.Terms.{frame_by, IsStored, number_in, no_place, term_value, is_true_term, term_reads, is_among};

use pv_eval::{OneOp, ThreeOp, TwoOp, one, pattern, three, two};
use pv_place::Place;
use pv_word::Ty;

/// A number that is made of visible cells.
#[derive(Drop)]
pub enum Term {
    Constant(i64),
    /// The value of a cell.
    Cell(u32),
    /// A bit of the byte in a cell, counted from 0.
    Bit(u32, u32),
    /// The byte in a cell.
    Byte(u32),
    /// Two bytes from a cell on, the high one first, as a value of the type.
    Word(Ty, u32),
    /// Four bytes from a cell on, the high one first, as a value of the type.
    Double(Ty, u32),
    One {
        op: OneOp,
        ty: Ty,
        arg: Box<Term>,
    },
    /// No pattern divides: a quotient by 0 is 0 here.
    Two {
        op: TwoOp,
        ty: Ty,
        left: Box<Term>,
        right: Box<Term>,
    },
    Three {
        op: ThreeOp,
        first: Box<Term>,
        second: Box<Term>,
        third: Box<Term>,
    },
}

/// The value of a cell; 0 where it isn't there.
fn cell(values: &[i128], n: usize) -> i64
    requires { All IsStored values.now }
    ensures { result ≡ visible_value (frame_by values.now) n }
{
    match values.get(n) {
        Some(v) => *v as i64,
        None => 0,
    }
}

fn byte(values: &[i128], n: usize) -> u64
    requires { All IsStored values.now }
    ensures value { result ≡ pattern_of A_byte (visible_value (frame_by values.now) n) }
    ensures short { result < 2 ^ 8 }
{
    pattern(Ty::Byte, cell(values, n))
}

fn bit(values: &[i128], n: usize, b: u32) -> i64
    requires { All IsStored values.now }
    ensures { result ≡ pos (bit_of A_byte (visible_value (frame_by values.now) n) b) }
{
    if b < 8 {
        ((byte(values, n) >> b) % 2) as i64
    } else {
        0
    }
}

fn word(values: &[i128], n: usize) -> u64
    requires stored { All IsStored values.now }
    requires near { n < 2 ^ 33 }
    ensures value { result ≡ number_of_bytes (frame_by values.now) n 2 0 }
    ensures short { result < 2 ^ 16 }
{
    byte(values, n) * 256 + byte(values, n + 1)
}

fn double(values: &[i128], n: usize) -> u64
    requires stored { All IsStored values.now }
    requires near { n < 2 ^ 32 }
    ensures value { result ≡ number_of_bytes (frame_by values.now) n 4 0 }
    ensures short { result < 2 ^ 32 }
{
    word(values, n) * 65536 + word(values, n + 2)
}

/// No pattern divides, so the place of a trap doesn't matter.
fn of_two(op: TwoOp, ty: Ty, a: i64, b: i64) -> i64
    ensures { result ≡ number_in (two_result op ty no_place a b) }
{
    let place = Place { file: 0, offset: 0 };
    match two(op, ty, place, a, b) {
        Ok(v) => v,
        Err(_) => 0,
    }
}

impl Term {
    /// Its value by the values of all visible cells, each of which 64 bits hold.
    pub fn value(&self, values: &[i128]) -> i64
        requires { All IsStored values.now }
        ensures { result ≡ term_value values.now self.now }
    {
        match self {
            Term::Constant(v) => *v,
            Term::Cell(n) => cell(values, *n as usize),
            Term::Bit(n, b) => bit(values, *n as usize, *b),
            Term::Byte(n) => byte(values, *n as usize) as i64,
            Term::Word(ty, n) => one(OneOp::Wrap, *ty, word(values, *n as usize) as i64),
            Term::Double(ty, n) => one(OneOp::Wrap, *ty, double(values, *n as usize) as i64),
            Term::One { op, ty, arg } => one(*op, *ty, arg.value(values)),
            Term::Two {
                op,
                ty,
                left,
                right,
            } => of_two(*op, *ty, left.value(values), right.value(values)),
            Term::Three {
                op,
                first,
                second,
                third,
            } => three(
                *op,
                first.value(values),
                second.value(values),
                third.value(values),
            ),
        }
    }

    /// Whether it is true: the BOOL that it is has the value 1.
    pub fn is_true(&self, values: &[i128]) -> bool
        requires { All IsStored values.now }
        ensures { result ≡ is_true_term values.now self.now }
    {
        self.value(values) == 1
    }

    /// Whether it reads the visible cell of this number.
    pub fn reads(&self, cell: u32) -> bool
        ensures { result ≡ term_reads cell self.now }
    {
        match self {
            Term::Constant(_) => false,
            Term::Cell(n) | Term::Bit(n, _) | Term::Byte(n) => cell == *n,
            Term::Word(_, n) => is_among(cell, *n, 2),
            Term::Double(_, n) => is_among(cell, *n, 4),
            Term::One { op: _, ty: _, arg } => arg.reads(cell),
            Term::Two {
                op: _,
                ty: _,
                left,
                right,
            } => left.reads(cell) || right.reads(cell),
            Term::Three {
                op: _,
                first,
                second,
                third,
            } => first.reads(cell) || second.reads(cell) || third.reads(cell),
        }
    }
}

/// Whether it is one of so many numbers from this one on.
fn is_among(cell: u32, first: u32, count: u32) -> bool
    ensures { result ≡ is_among cell first count }
{
    first <= cell && cell - first < count
}
