//! Numbers of variables and indexes, exact or refused as too large.
ghost use Rattle.std.specs.Prelude.{◌≡◌, ◌+◌, ◌*◌, ◌^◌, pos, ◌+ℤ◌, ◌-ℤ◌, unsigned_abs, IfOk};

use crate::access::Move;
use pv_terms::TermFault;

/// The sum, where 32 bits hold it.
pub(crate) fn added(a: u32, b: u32) -> Result<u32, TermFault>
    ensures { IfOk result (λ n. n ≡ a + b) }
{
    match a.checked_add(b) {
        Some(n) => Ok(n),
        None => Err(TermFault::TooLarge),
    }
}

/// The product, where 32 bits hold it.
pub(crate) fn times(a: u32, b: u32) -> Result<u32, TermFault>
    ensures { IfOk result (λ n. n ≡ a * b) }
{
    match a.checked_mul(b) {
        Some(n) => Ok(n),
        None => Err(TermFault::TooLarge),
    }
}

/// The variable of the k-th element of so many cells, each of so many variables, from variable n on.
pub(crate) fn further(n: u32, k: u32, stride: u32, width: u32) -> Result<u32, TermFault>
    ensures { IfOk result (λ m. m ≡ n + k * (stride * width)) }
{
    let each = times(stride, width)?;
    let behind = times(k, each)?;
    added(n, behind)
}

/// From the lowest index to the highest there are so many steps.
pub(crate) fn steps_of(m: &Move) -> Result<u32, TermFault>
    ensures { IfOk result (λ k. k ≡ unsigned_abs (m.now.high -ℤ m.now.low)) }
{
    match u32::try_from(m.high.abs_diff(m.low)) {
        Ok(k) => Ok(k),
        Err(_) => Err(TermFault::TooLarge),
    }
}

/// The k-th index from the lowest.
pub(crate) fn index_at(m: &Move, k: u32) -> Result<i128, TermFault>
    ensures { IfOk result (λ v. v ≡ m.now.low +ℤ pos k) }
{
    match m.low.checked_add(i128::from(k)) {
        Some(v) => Ok(v),
        None => Err(TermFault::TooLarge),
    }
}

/// All bits of a byte but this one.
pub(crate) fn other_bits(b: u32) -> Result<i128, TermFault>
    ensures { IfOk result (λ v. v ≡ pos 255 -ℤ pos (2 ^ b)) }
{
    match 2u32.checked_pow(b) {
        Some(own) => Ok(255 - i128::from(own)),
        None => Err(TermFault::TooLarge),
    }
}
