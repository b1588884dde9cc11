//! The operations on whole numbers, wrapped, and the order.
ghost use Rattle.std.specs.Prelude.{◌≡◌, ◌≢◌, ◌↔◌, pos, ◌+ℤ◌, ◌-ℤ◌, ◌*ℤ◌, ◌<ℤ◌};
ghost use Rattle.pv_word.specs.Division.{IsDivision, quotient, remainder};
ghost use Rattle.pv_word.specs.Types.{InRange, wrap_of};

use crate::types::Ty;
use crate::wrapping::wrap;
use std::cmp::Ordering;

/// The wrapped sum.
pub fn add(ty: Ty, a: i128, b: i128) -> i128
    requires a_in_range { InRange ty a }
    requires b_in_range { InRange ty b }
    ensures in_range { InRange ty result }
    ensures value { result ≡ wrap_of ty (a +ℤ b) }
{
    wrap(ty, a + b)
}

/// The wrapped difference.
pub fn sub(ty: Ty, a: i128, b: i128) -> i128
    requires a_in_range { InRange ty a }
    requires b_in_range { InRange ty b }
    ensures in_range { InRange ty result }
    ensures value { result ≡ wrap_of ty (a -ℤ b) }
{
    wrap(ty, a - b)
}

/// The wrapped product.
pub fn mul(ty: Ty, a: i128, b: i128) -> i128
    requires a_in_range { InRange ty a }
    requires b_in_range { InRange ty b }
    ensures in_range { InRange ty result }
    ensures value { result ≡ wrap_of ty (a *ℤ b) }
{
    wrap(ty, a * b)
}

/// The quotient, truncated toward zero and wrapped. The quotient of whole numbers is out of range only where the least value of
/// a signed type is divided by -1, and the result is the least value then.
pub fn div(ty: Ty, a: i128, b: i128) -> i128
    requires a_in_range { InRange ty a }
    requires b_in_range { InRange ty b }
    requires nonzero { b ≢ pos 0 }
    ensures in_range { InRange ty result }
    ensures divides { (q : _) × (r : _) × IsDivision a b q r × (result ≡ wrap_of ty q) }
    ensures value { result ≡ wrap_of ty (quotient a b) }
{
    wrap(ty, a / b)
}

/// The remainder of the division that truncates toward zero. It is 0 or has the sign of `a`.
pub fn rem(ty: Ty, a: i128, b: i128) -> i128
    requires a_in_range { InRange ty a }
    requires b_in_range { InRange ty b }
    requires nonzero { b ≢ pos 0 }
    ensures in_range { InRange ty result }
    ensures divides { (q : _) × IsDivision a b q result }
    ensures value { result ≡ wrap_of ty (remainder a b) }
{
    a % b
}

/// The order of two values as whole numbers.
pub fn compare(a: i128, b: i128) -> Ordering
    ensures less { (result ≡ Ordering.Less) ↔ (a <ℤ b) }
    ensures equal { (result ≡ Ordering.Equal) ↔ (a ≡ b) }
    ensures greater { (result ≡ Ordering.Greater) ↔ (b <ℤ a) }
{
    a.cmp(&b)
}
