//! The operations on the bit patterns of values, and the shifts, which bring in zeros.
ghost use Rattle.std.specs.Prelude.{◌≡◌, ◌+◌, ◌-◌, ◌%◌, ◌≤◌, pos, min, max, nat_lt, if◌then◌else◌};
ghost use Rattle.pv_word.specs.Types.{width_of, InRange, pattern_of, bit_of, HasBits, and_of, or_of, xor_of, not_of, shl_of, shr_of};

use crate::types::{Ty, modulus, width};
use crate::wrapping::{pattern, wrap};

/// The conjunction of each bit of `a` and that of `b`.
pub fn and(ty: Ty, a: i128, b: i128) -> i128
    requires a_in_range { InRange ty a }
    requires b_in_range { InRange ty b }
    ensures bits { HasBits ty result (λ i. min (bit_of ty a i) (bit_of ty b i)) }
    ensures value { result ≡ and_of ty a b }
{
    let both = pattern(ty, a) & pattern(ty, b);
    wrap(ty, i128::from(both))
}

/// The disjunction of each bit of `a` and that of `b`.
pub fn or(ty: Ty, a: i128, b: i128) -> i128
    requires a_in_range { InRange ty a }
    requires b_in_range { InRange ty b }
    ensures bits { HasBits ty result (λ i. max (bit_of ty a i) (bit_of ty b i)) }
    ensures value { result ≡ or_of ty a b }
{
    let either = pattern(ty, a) | pattern(ty, b);
    wrap(ty, i128::from(either))
}

/// The exclusive disjunction of each bit of `a` and that of `b`.
pub fn xor(ty: Ty, a: i128, b: i128) -> i128
    requires a_in_range { InRange ty a }
    requires b_in_range { InRange ty b }
    ensures bits { HasBits ty result (λ i. (bit_of ty a i + bit_of ty b i) % 2) }
    ensures value { result ≡ xor_of ty a b }
{
    let one = pattern(ty, a) ^ pattern(ty, b);
    wrap(ty, i128::from(one))
}

/// The complement of each bit.
pub fn not(ty: Ty, a: i128) -> i128
    requires { InRange ty a }
    ensures bits { HasBits ty result (λ i. 1 - bit_of ty a i) }
    ensures value { result ≡ not_of ty a }
{
    wrap(ty, modulus(ty) - 1 - i128::from(pattern(ty, a)))
}

/// Each bit `n` places higher, with zeros below. 0 where `n` is the width or more.
pub fn shl(ty: Ty, a: i128, n: u32) -> i128
    requires { InRange ty a }
    ensures bits { HasBits ty result (λ i. if nat_lt i n then 0 else bit_of ty a (i - n)) }
    ensures far { width_of ty ≤ n → result ≡ pos 0 }
    ensures value { result ≡ shl_of ty a n }
{
    if n < width(ty) {
        wrap(ty, i128::from(pattern(ty, a)) << n)
    } else {
        0
    }
}

/// Each bit `n` places lower, with zeros above, also for a negative value. 0 where `n` is the width or more.
pub fn shr(ty: Ty, a: i128, n: u32) -> i128
    requires { InRange ty a }
    ensures bits { HasBits ty result (λ i. if nat_lt (i + n) (width_of ty) then bit_of ty a (i + n) else 0) }
    ensures far { width_of ty ≤ n → result ≡ pos 0 }
    ensures value { result ≡ shr_of ty a n }
{
    if n < width(ty) {
        wrap(ty, i128::from(pattern(ty, a) >> n))
    } else {
        0
    }
}
