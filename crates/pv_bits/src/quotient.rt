//! Quotients and remainders.

ghost use Rattle.std.specs.Prelude.{◌≡◌, ◌<◌, ◌≤◌, ◌+◌, ◌++◌, ◌∷◌, [], All, length, IfOk, OnErr, Err};
ghost use Rattle.pv_gate.specs.Node.{Names, false_literal};
ghost use Rattle.pv_gate.specs.Building.{Gives};
ghost use Rattle.pv_gate.specs.declared.fault.GateFault.TheVariants.{NoMemory};
ghost use Rattle.pv_bits.specs.Circuits.{taken, negate_if, divide_step, divide_unsigned, divide_magnitudes, put_back, divide_signed, divide};

use crate::choice::select;
use crate::compare::less_unsigned;
use crate::sum::subtract;
use crate::word::{below_top, falses, top};
use pv_gate::{FALSE, GateFault, Gates, Literals};
use std::alloc::Global;

/// Quotient and remainder, as numbers from 0 or signed: the quotient is truncated toward zero, and
/// the remainder has the sign of the first word.
///
/// By zero the remainder is the first word, and the quotient is -1, or 1 where that is negative, or
/// the greatest value where words are numbers from 0.
pub fn divide(
    alloc: Global,
    g: &mut Gates,
    signed: bool,
    a: &[i32],
    b: &[i32],
) -> Result<(Literals, Literals), GateFault>
    requires same { length a.now ≡ length b.now }
    requires width { 1 ≤ length a.now }
    requires first { All (Names (length g.old.nodes)) a.now }
    requires second { All (Names (length g.old.nodes)) b.now }
    ensures built { Gives g.old g.new (divide signed a.now b.now) result }
    ensures quotient { IfOk result (λ o. All (Names (length g.new.nodes)) o.0) }
    ensures remainder { IfOk result (λ o. All (Names (length g.new.nodes)) o.1) }
    ensures quotient_width { IfOk result (λ o. length o.0 ≡ length a.now) }
    ensures remainder_width { IfOk result (λ o. length o.1 ≡ length a.now) }
    ensures longer { length g.old.nodes ≤ length g.new.nodes }
{
    if signed {
        divide_signed(alloc, g, a, b)
    } else {
        divide_unsigned(alloc, g, a, b)
    }
}

/// The magnitudes are divided, and the signs put back.
fn divide_signed(
    alloc: Global,
    g: &mut Gates,
    a: &[i32],
    b: &[i32],
) -> Result<(Literals, Literals), GateFault>
    requires same { length a.now ≡ length b.now }
    requires width { 1 ≤ length a.now }
    requires first { All (Names (length g.old.nodes)) a.now }
    requires second { All (Names (length g.old.nodes)) b.now }
    ensures built { Gives g.old g.new (divide_signed a.now b.now) result }
    ensures quotient { IfOk result (λ o. All (Names (length g.new.nodes)) o.0) }
    ensures remainder { IfOk result (λ o. All (Names (length g.new.nodes)) o.1) }
    ensures quotient_width { IfOk result (λ o. length o.0 ≡ length a.now) }
    ensures remainder_width { IfOk result (λ o. length o.1 ≡ length a.now) }
    ensures longer { length g.old.nodes ≤ length g.new.nodes }
{
    let _count = g.nodes();
    let (whole, left) = divide_magnitudes(alloc, g, a, b)?;
    put_back(alloc, g, top(a), top(b), whole.as_slice(), left.as_slice())
}

/// The division of the magnitudes.
fn divide_magnitudes(
    alloc: Global,
    g: &mut Gates,
    a: &[i32],
    b: &[i32],
) -> Result<(Literals, Literals), GateFault>
    requires same { length a.now ≡ length b.now }
    requires width { 1 ≤ length a.now }
    requires first { All (Names (length g.old.nodes)) a.now }
    requires second { All (Names (length g.old.nodes)) b.now }
    ensures built { Gives g.old g.new (divide_magnitudes a.now b.now) result }
    ensures quotient { IfOk result (λ o. All (Names (length g.new.nodes)) o.0) }
    ensures remainder { IfOk result (λ o. All (Names (length g.new.nodes)) o.1) }
    ensures quotient_width { IfOk result (λ o. length o.0 ≡ length a.now) }
    ensures remainder_width { IfOk result (λ o. length o.1 ≡ length a.now) }
    ensures longer { length g.old.nodes ≤ length g.new.nodes }
{
    let _count = g.nodes();
    let dividend = negate_if(alloc, g, top(a), a)?;
    let divisor = negate_if(alloc, g, top(b), b)?;
    divide_unsigned(alloc, g, dividend.as_slice(), divisor.as_slice())
}

/// Quotient and remainder of the magnitudes with their signs, by those of dividend and divisor.
fn put_back(
    alloc: Global,
    g: &mut Gates,
    dividend: i32,
    divisor: i32,
    whole: &[i32],
    left: &[i32],
) -> Result<(Literals, Literals), GateFault>
    requires dividend { Names (length g.old.nodes) dividend }
    requires divisor { Names (length g.old.nodes) divisor }
    requires whole { All (Names (length g.old.nodes)) whole.now }
    requires left { All (Names (length g.old.nodes)) left.now }
    ensures built { Gives g.old g.new (put_back dividend divisor (whole.now, left.now)) result }
    ensures quotient { IfOk result (λ o. All (Names (length g.new.nodes)) o.0) }
    ensures remainder { IfOk result (λ o. All (Names (length g.new.nodes)) o.1) }
    ensures quotient_width { IfOk result (λ o. length o.0 ≡ length whole.now) }
    ensures remainder_width { IfOk result (λ o. length o.1 ≡ length left.now) }
    ensures longer { length g.old.nodes ≤ length g.new.nodes }
{
    let _count = g.nodes();
    let differ = g.xor(dividend, divisor)?;
    let quotient = negate_if(alloc, g, differ, whole)?;
    let remainder = negate_if(alloc, g, dividend, left)?;
    Ok((quotient, remainder))
}

/// The negated number where `s`.
fn negate_if(alloc: Global, g: &mut Gates, s: i32, a: &[i32]) -> Result<Literals, GateFault>
    requires selector { Names (length g.old.nodes) s }
    requires word { All (Names (length g.old.nodes)) a.now }
    ensures built { Gives g.old g.new (negate_if s a.now) result }
    ensures names { IfOk result (λ made. All (Names (length g.new.nodes)) made) }
    ensures width { IfOk result (λ made. length made ≡ length a.now) }
    ensures longer { length g.old.nodes ≤ length g.new.nodes }
{
    let _count = g.nodes();
    let zero = falses(alloc, g, a.len())?;
    let minus = subtract(alloc, g, zero.as_slice(), a)?;
    select(alloc, g, s, minus.as_slice(), a)
}

/// The division of numbers from 0, from the highest bit of the first one on.
fn divide_unsigned(
    alloc: Global,
    g: &mut Gates,
    a: &[i32],
    b: &[i32],
) -> Result<(Literals, Literals), GateFault>
    requires same { length a.now ≡ length b.now }
    requires first { All (Names (length g.old.nodes)) a.now }
    requires second { All (Names (length g.old.nodes)) b.now }
    ensures built { Gives g.old g.new (divide_unsigned a.now b.now) result }
    ensures quotient { IfOk result (λ o. All (Names (length g.new.nodes)) o.0) }
    ensures remainder { IfOk result (λ o. All (Names (length g.new.nodes)) o.1) }
    ensures quotient_width { IfOk result (λ o. length o.0 ≡ length a.now) }
    ensures remainder_width { IfOk result (λ o. length o.1 ≡ length a.now) }
    ensures longer { length g.old.nodes ≤ length g.new.nodes }
{
    let _count = g.nodes();
    let wide = extended(alloc, g, b)?;
    let mut left = falses(alloc, g, a.len() + 1)?;
    let mut quotient = Literals::new(alloc);
    for i in 0..a.len() {
        let (bit, next) = divide_step(
            alloc,
            g,
            wide.as_slice(),
            left.as_slice(),
            a[a.len() - 1 - i],
        )?;
        quotient.push(bit)?;
        left = next;
    }
    quotient.reverse();
    let remainder = Literals::from_slice(alloc, below_top(left.as_slice()))?;
    Ok((quotient, remainder))
}

/// The word with one bit more, which is constant false.
fn extended(alloc: Global, g: &Gates, word: &[i32]) -> Result<Literals, GateFault>
    requires { All (Names (length g.now.nodes)) word.now }
    ensures word { IfOk result (λ wide. wide ≡ word.now ++ false_literal ∷ []) }
    ensures names { IfOk result (λ wide. All (Names (length g.now.nodes)) wide) }
    ensures err { OnErr result (result ≡ Err NoMemory) }
{
    // Node 1 is there.
    let _count = g.nodes();
    let mut wide = Literals::from_slice(alloc, word)?;
    wide.push(FALSE)?;
    Ok(wide)
}

/// A bit of the quotient, and what is left: it takes the next bit of the first word, and the second
/// one is subtracted where it isn't larger.
fn divide_step(
    alloc: Global,
    g: &mut Gates,
    wide: &[i32],
    left: &[i32],
    bit: i32,
) -> Result<(i32, Literals), GateFault>
    requires same { length left.now ≡ length wide.now }
    requires width { 1 ≤ length left.now }
    requires wide { All (Names (length g.old.nodes)) wide.now }
    requires left { All (Names (length g.old.nodes)) left.now }
    requires bit { Names (length g.old.nodes) bit }
    ensures built { Gives g.old g.new (divide_step wide.now left.now bit) result }
    ensures bit { IfOk result (λ o. Names (length g.new.nodes) o.0) }
    ensures left { IfOk result (λ o. All (Names (length g.new.nodes)) o.1) }
    ensures width { IfOk result (λ o. length o.1 ≡ length left.now) }
    ensures longer { length g.old.nodes ≤ length g.new.nodes }
{
    let _count = g.nodes();
    let taken = taken(alloc, g, bit, left)?;
    let below = less_unsigned(g, taken.as_slice(), wide)?;
    let difference = subtract(alloc, g, taken.as_slice(), wide)?;
    let enough = g.complement(below);
    let next = select(alloc, g, enough, difference.as_slice(), taken.as_slice())?;
    Ok((enough, next))
}

/// What is left, shifted by one place with the next bit below.
fn taken(alloc: Global, g: &Gates, bit: i32, left: &[i32]) -> Result<Literals, GateFault>
    requires width { 1 ≤ length left.now }
    requires bit { Names (length g.now.nodes) bit }
    requires left { All (Names (length g.now.nodes)) left.now }
    ensures word { IfOk result (λ word. word ≡ taken bit left.now) }
    ensures names { IfOk result (λ word. All (Names (length g.now.nodes)) word) }
    ensures width { IfOk result (λ word. length word ≡ length left.now) }
    ensures err { OnErr result (result ≡ Err NoMemory) }
{
    let mut word = Literals::new(alloc);
    word.push(bit)?;
    word.extend(below_top(left))?;
    Ok(word)
}
