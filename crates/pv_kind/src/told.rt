//! What an oracle answers.
use pv_claims::Trace;
use pv_log::Numbers;
use std::alloc::AllocError;
use thiserror::Error;

/// The last number of a query that an oracle is asked.
pub const LAST_QUERY: u32 = 64;

/// Why an oracle has no number of variables.
#[derive(Clone, Copy, Debug, PartialEq, Eq, Error)]
pub enum OracleFault {
    /// The circuit of its chain passes the limit on circuits.
    #[error("the circuit passes the limit")]
    Gates,
    /// The allocator has no memory left.
    #[error("out of memory")]
    NoMemory,
}

impl From<AllocError> for OracleFault {
    ghost use Rattle.std.specs.Prelude.{◌≡◌};
    ghost use Rattle.pv_kind.specs.declared.told.OracleFault.TheVariants.{NoMemory};

    ghost from_gives = { λ _ fault. fault ≡ NoMemory };

    fn from(_: AllocError) -> OracleFault {
        OracleFault::NoMemory
    }
}

/// What values that make a query's clauses hold say of the machine.
#[derive(Drop)]
pub enum Told {
    /// The machine meets the query, by this trace.
    Same(Trace),
    /// The trace isn't one of the machine.
    Differs {
        /// The first scan at whose beginning it has other values than the machine, from 1.
        scan: u32,
        /// The abstracted cells that have them there.
        cells: Numbers,
    },
}
