//! How one reduction is put after another.
ghost use Rattle.std.specs.Prelude.{◌≡◌};
ghost use Rattle.pv_machine.specs.Same.{IsSame};

use crate::pair::Then;
use crate::reduction::Reduction;

/// The first reduction, then the second.
pub fn then<First: Reduction, Second: Reduction>(
    first: First,
    second: Second,
) -> Then<First, Second>
    requires { IsSame (First.to first) (Second.from second) }
    ensures first { result.first ≡ first }
    ensures second { result.second ≡ second }
{
    Then { first, second }
}
