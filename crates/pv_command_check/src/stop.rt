//! Why a check stops before its report.
ghost use Rattle.std.specs.Prelude.{◌≡◌, Some, None, IfOk, string_bytes};
ghost use Rattle.pv_command_check.specs.Checks.{check_stop_status, check_stop_text, check_stop_keeps};
ghost use Rattle.pv_command_check.specs.declared.stop.CheckStop.TheVariants.{First as At_first, NoMemory};

use pv_command_verdict::{
    FirstStop, NO_MEMORY, SOURCE_REFUSED, Status, WRITE_FAULT, edges_line, gates_line,
};
use pv_edge::Text;
use std::alloc::{AllocError, Global};
use thiserror::Error;

/// Why a check stops before its report.
#[derive(Debug, Drop, Error)]
pub enum CheckStop {
    /// At what it works on.
    #[error(transparent)]
    First(FirstStop),
    /// The block has more assignments than an automaton may have edges.
    #[error("the block has too many edges")]
    TooManyEdges,
    /// The circuit of a scan has more gates than there may be.
    #[error("the circuit has too many gates")]
    TooManyGates {
        /// The line of the chain whose circuit that is, with its line feed.
        chain: Text,
    },
    /// The certificate can't be written to the file that the case names. Nothing is printed.
    #[error("the certificate can't be written")]
    Unwritten,
    #[error("out of memory")]
    NoMemory,
}

impl From<AllocError> for CheckStop {
    ghost from_gives = { λ _ stop. stop ≡ NoMemory };

    fn from(_error: AllocError) -> CheckStop {
        CheckStop::NoMemory
    }
}

impl From<FirstStop> for CheckStop {
    ghost from_gives = { λ stop passed. passed ≡ At_first stop };

    fn from(stop: FirstStop) -> CheckStop {
        CheckStop::First(stop)
    }
}

impl CheckStop {
    pub fn status(&self) -> Status
        ensures { result ≡ check_stop_status self.now }
    {
        match self {
            CheckStop::First(stop) => stop.status(),
            CheckStop::TooManyEdges => SOURCE_REFUSED,
            CheckStop::TooManyGates { .. } => SOURCE_REFUSED,
            CheckStop::Unwritten => WRITE_FAULT,
            CheckStop::NoMemory => NO_MEMORY,
        }
    }

    /// The fault line; an error where memory ends, or ended before, or where nothing is to be printed.
    pub fn text(&self, alloc: Global) -> Result<String, AllocError>
        ensures { IfOk result (λ text. check_stop_text self.now ≡ Some (string_bytes text)) }
    {
        match self {
            CheckStop::First(stop) => stop.text(alloc),
            CheckStop::TooManyEdges => edges_line(alloc),
            CheckStop::TooManyGates { .. } => gates_line(alloc),
            CheckStop::Unwritten | CheckStop::NoMemory => Err(AllocError),
        }
    }

    /// What there is to keep once the fault line is taken whole: the line of the chain whose circuit has too many gates.
    pub fn into_chain(self) -> Option<Text>
        ensures { result ≡ check_stop_keeps self }
    {
        match self {
            CheckStop::TooManyGates { chain } => Some(chain),
            other => none_of(other),
        }
    }
}

/// Nothing is kept of a stop.
fn none_of(stop: CheckStop) -> Option<Text>
    ensures { result ≡ None }
{
    drop(stop);
    None
}
