//! Why parts are no automaton.

use std::alloc::AllocError;
use thiserror::Error;

/// Why parts are no automaton: of the first three the first that applies, in this order.
#[derive(Clone, Copy, Debug, PartialEq, Eq, Error)]
pub enum FlowFault {
    /// A location is named that there isn't.
    #[error("there is no such location")]
    BadLocation,
    /// A variable is named that there isn't.
    #[error("there is no such variable")]
    BadVariable,
    /// An edge of a loop isn't there, two loops cross, or an edge enters a loop elsewhere than at its first location.
    #[error("a loop has no such edge, crosses another, or is entered elsewhere than at its first location")]
    BadLoop,
    /// The allocator has no memory left.
    #[error("out of memory")]
    NoMemory,
}

impl From<AllocError> for FlowFault {
    ghost use Rattle.std.specs.Prelude.{◌≡◌};
    ghost use Rattle.pv_flow.specs.declared.fault.FlowFault.TheVariants.{NoMemory};

    ghost from_gives = { λ _ fault. fault ≡ NoMemory };

    fn from(_: AllocError) -> FlowFault {
        FlowFault::NoMemory
    }
}
