//! The pattern of a number, and the value of a type that has it.
ghost use Rattle.std.specs.Prelude.{◌≡◌};
ghost use Rattle.pv_word.specs.Types.{InRange, IsWrapOf, wrap_of, pattern_of};

use crate::types::{Ty, greatest, modulus, width};

/// The lowest bits of `n` in two's complement, as many as the type has, as a number from 0.
pub(crate) fn pattern(ty: Ty, n: i128) -> u64
    ensures { result ≡ pattern_of ty n }
{
    let ones = (1_u128 << width(ty)) - 1;
    (n.cast_unsigned() & ones) as u64
}

/// The value of the type that is congruent to `n` modulo 2 to the power of the width. There is exactly one.
pub fn wrap(ty: Ty, n: i128) -> i128
    ensures in_range { InRange ty result }
    ensures one { IsWrapOf ty n result }
    ensures value { result ≡ wrap_of ty n }
{
    let pattern = i128::from(pattern(ty, n));
    if pattern <= greatest(ty) {
        pattern
    } else {
        pattern - modulus(ty)
    }
}
