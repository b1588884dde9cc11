//! Where the steps of a check stop: each step has the stops that it can come to.
ghost use Rattle.std.specs.Prelude.{◌≡◌};
ghost use Rattle.pv_recheck.specs.Judging.{answer_of};

use crate::fault::{Kind, RecheckFault};
use pv_log::LineFault;
use std::alloc::AllocError;

/// Why the step that judges the log stops.
#[derive(Clone, Copy)]
pub(crate) enum LogStop {
    /// The step circuit, whose formula the log is for, has more gates than the limit.
    TooManyGates,
    /// A line doesn't follow: its line in the file, and why.
    Line(u64, LineFault),
    /// Each line follows, but the last isn't empty, or there is none.
    NoEmpty,
    /// The allocator has no memory left.
    NoMemory,
}

impl From<AllocError> for LogStop {
    ghost use Rattle.pv_recheck.specs.declared.stop.LogStop.TheVariants.{NoMemory};

    ghost from_gives = { λ _ stop. stop ≡ NoMemory };

    fn from(_error: AllocError) -> LogStop {
        LogStop::NoMemory
    }
}

/// Why the step that judges a certificate's proofs stops.
#[derive(Clone, Copy)]
pub(crate) enum ProofStop {
    /// At the first proof's log.
    Log(LogStop),
    /// The first proof isn't the verdict's, or one stands behind it: the line in the file.
    WrongQuery(u64),
}

/// The answer of a check whose proofs were judged so.
pub(crate) fn answer_of(judged: Result<(), ProofStop>) -> Result<(), RecheckFault>
    ensures { result ≡ answer_of judged }
{
    match judged {
        Ok(()) => Ok(()),
        Err(ProofStop::Log(LogStop::TooManyGates)) => Err(RecheckFault::TooManyGates),
        Err(ProofStop::Log(LogStop::Line(line, fault))) => Err(RecheckFault::Fault {
            line,
            kind: Kind::Line(fault),
        }),
        Err(ProofStop::Log(LogStop::NoEmpty)) => Err(RecheckFault::Fault {
            line: 5,
            kind: Kind::NoEmpty,
        }),
        Err(ProofStop::Log(LogStop::NoMemory)) => Err(RecheckFault::NoMemory),
        Err(ProofStop::WrongQuery(line)) => Err(RecheckFault::Fault {
            line,
            kind: Kind::WrongQuery,
        }),
    }
}
