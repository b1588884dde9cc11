//! Why the making of a case stops.
use crate::checks::Breach;
use std::alloc::{AllocError, AllocFailed};

/// Why the making of a case stops: at the first rule that is broken, or for want of memory.
#[derive(Clone, Copy)]
pub(crate) enum Stop<'a> {
    Broken(Breach<'a>),
    NoMemory,
}

impl<'a> From<Breach<'a>> for Stop<'a> {
    ghost use Rattle.std.specs.Prelude.{◌≡◌};
    ghost use Rattle.pv_case.specs.declared.stop.Stop.TheVariants.{Broken};

    ghost from_gives = { λ b stop. stop ≡ Broken b };

    fn from(breach: Breach<'a>) -> Stop<'a> {
        Stop::Broken(breach)
    }
}

impl<'a> From<AllocError> for Stop<'a> {
    ghost use Rattle.std.specs.Prelude.{◌≡◌};
    ghost use Rattle.pv_case.specs.declared.stop.Stop.TheVariants.{NoMemory};

    ghost from_gives = { λ _ stop. stop ≡ NoMemory };

    fn from(_error: AllocError) -> Stop<'a> {
        Stop::NoMemory
    }
}

impl<'a, T: Drop> From<AllocFailed<T>> for Stop<'a> {
    ghost use Rattle.std.specs.Prelude.{◌≡◌};
    ghost use Rattle.pv_case.specs.declared.stop.Stop.TheVariants.{NoMemory};

    ghost from_gives = { λ _ stop. stop ≡ NoMemory };

    fn from(_error: AllocFailed<T>) -> Stop<'a> {
        Stop::NoMemory
    }
}
