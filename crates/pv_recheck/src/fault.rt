//! Why a certificate isn't accepted.
ghost use Rattle.std.specs.Prelude.{◌≡◌};
ghost use Rattle.pv_recheck.specs.Kinds.{line_word, kind_word};

use pv_log::LineFault;
use std::alloc::AllocError;
use thiserror::Error;

/// What is wrong first with a certificate. (The kinds of traces, of lemmas and of a region are to
/// come.)
#[derive(Clone, Copy, Debug, PartialEq, Eq)]
pub enum Kind {
    /// The bytes are no certificate: no certificate begins with this line and those before it.
    NotACertificate,
    /// A line of the log doesn't follow.
    Line(LineFault),
    /// Each line of the log follows, but the last isn't empty, or there is none. The line is the one
    /// that says how many there are.
    NoEmpty,
    /// A proof's query isn't the verdict's, at its line; or a proof is missing, at the line that
    /// stands in its place.
    WrongQuery,
}

impl Kind {
    /// The word of a fault line.
    pub fn name(self) -> &'static str
        ensures { result.now ≡ kind_word self }
    {
        match self {
            Kind::NotACertificate => "NotACertificate",
            Kind::Line(fault) => line_name(fault),
            Kind::NoEmpty => "NoEmpty",
            Kind::WrongQuery => "WrongQuery",
        }
    }
}

fn line_name(fault: LineFault) -> &'static str
    ensures { result.now ≡ line_word fault }
{
    match fault {
        LineFault::BadId => "BadId",
        LineFault::UnknownHint => "UnknownHint",
        LineFault::NotUnit => "NotUnit",
        LineFault::LastNotFalse => "LastNotFalse",
        LineFault::Tautology => "Tautology",
        LineFault::NotNew => "NotNew",
    }
}

/// Why a certificate isn't accepted.
#[derive(Clone, Copy, Debug, PartialEq, Eq, Error)]
pub enum RecheckFault {
    /// Line 2 is another verdict than `verdict satisfied 0`, or line 4 a chain with words: forms
    /// that aren't read yet. Lines are ended by line feeds. This comes before all else.
    #[error("the certificate is of a form that isn't read")]
    Unbuilt,
    /// The step circuit has more gates than `MAX_STEP_GATES`, and nothing before the first log is at
    /// fault.
    #[error("the step circuit has too many gates")]
    TooManyGates,
    /// The certificate isn't valid.
    #[error("the certificate is at fault in line {line}")]
    Fault {
        /// The first line at fault, from 1.
        line: u64,
        /// What is wrong with it.
        kind: Kind,
    },
    /// The allocator has no memory left.
    #[error("out of memory")]
    NoMemory,
}

impl From<AllocError> for RecheckFault {
    ghost use Rattle.pv_recheck.specs.declared.fault.RecheckFault.TheVariants.{NoMemory};

    ghost from_gives = { λ _ fault. fault ≡ NoMemory };

    fn from(_error: AllocError) -> RecheckFault {
        RecheckFault::NoMemory
    }
}
