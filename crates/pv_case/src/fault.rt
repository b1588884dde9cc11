//! Why a case isn't read.
ghost use Rattle.std.specs.Prelude.{◌≡◌};
ghost use Rattle.pv_case.specs.declared.fault.CaseFault.TheVariants.{NoMemory};

use std::alloc::AllocError;
use thiserror::Error;

/// Which rule of cases is broken.
#[derive(Clone, Copy, PartialEq, Eq, Debug)]
pub enum Kind {
    /// A member that has to be there isn't.
    MissingField,
    /// A value of another JSON type; a number that is no integer of 64 bits counts as one.
    WrongKind,
    /// A member that no case has.
    UnknownField,
    /// A value of the right JSON type that breaks its member's own rule.
    OutOfLimit,
    /// No pattern has this name.
    NoSuchPattern,
    /// The pattern has other expressions than those of its kind.
    CountOfExpressions,
    /// The symbol's operand is no address, its type doesn't suit the address, or an earlier symbol has its name.
    BadSymbol,
}

/// Why a case isn't read.
#[derive(Debug, Drop, Error)]
pub enum CaseFault {
    /// The bytes are no JSON text of an object.
    #[error("the case is no JSON object")]
    NotJson,
    /// The first rule that is broken, with the innermost member that breaks it; of an array's element it is the
    /// array's name.
    #[error("{kind:?} {field}")]
    Broken { kind: Kind, field: String },
    #[error("out of memory")]
    NoMemory,
}

impl From<AllocError> for CaseFault {
    ghost from_gives = { λ _ fault. fault ≡ NoMemory };

    fn from(_error: AllocError) -> CaseFault {
        CaseFault::NoMemory
    }
}
