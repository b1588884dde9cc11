//! Why a block stops before its end.

ghost use Rattle.std.specs.Prelude.{◌≡◌};
ghost use Rattle.pv_place.specs.declared.trap.TrapKind.TheVariants.{Unset};

use pv_eval::Trap;
use pv_place::{Place, TrapKind};

/// Why a block stops before its end.
#[derive(Clone, Copy, PartialEq, Eq, Debug)]
pub enum Stop {
    Trap(Trap),
    /// An entry into the range whose label has this place would take one turn too many.
    Over(Place),
}

/// What has no value is read.
pub(crate) fn unset(place: Place) -> Trap
    ensures kind { result.kind ≡ Unset }
    ensures place { result.place ≡ place }
{
    Trap {
        kind: TrapKind::Unset,
        place,
    }
}
