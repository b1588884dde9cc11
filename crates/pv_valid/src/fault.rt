//! What judging a certificate answers.
ghost use Rattle.std.specs.Prelude.{◌≡◌};
ghost use Rattle.pv_valid.specs.Kinds.{line_word, kind_word};

use pv_claims::{Claim, Ending};
use pv_log::LineFault;
use std::alloc::AllocError;
use thiserror::Error;

/// What is wrong first with a certificate.
#[derive(Clone, Copy, Debug, PartialEq, Eq)]
pub enum Kind {
    /// The bytes are no certificate: no certificate begins with this line and those before it.
    NotACertificate,
    /// A line of a log doesn't follow, or a lemma isn't new.
    Line(LineFault),
    /// Each line of a log that refutes follows, but the last isn't empty, or there is none. The line is the one that says how many
    /// there are.
    NoEmpty,
    /// The line doesn't belong to the case and the verdict: the verdict, a value or a mark of a trace, a query or a chain; or a proof is
    /// missing, at the line that stands in its place; or a lemma is empty.
    WrongQuery,
    /// The scan isn't as the verdict says.
    TraceDiffers,
    /// There aren't as many lemmas as the case allows, at the line that says how many there are.
    WrongBudget,
    /// So many words aren't the first sum past those of the case, at the line that begins with `next`.
    WrongNeed,
}

impl Kind {
    /// The word of a fault line.
    pub fn name(self) -> &'static str
        ensures { result.now ≡ kind_word self }
    {
        match self {
            Kind::NotACertificate => "NotACertificate",
            Kind::Line(fault) => line_name(fault),
            Kind::NoEmpty => "NoEmpty",
            Kind::WrongQuery => "WrongQuery",
            Kind::TraceDiffers => "TraceDiffers",
            Kind::WrongBudget => "WrongBudget",
            Kind::WrongNeed => "WrongNeed",
        }
    }
}

fn line_name(fault: LineFault) -> &'static str
    ensures { result.now ≡ line_word fault }
{
    match fault {
        LineFault::BadId => "BadId",
        LineFault::UnknownHint => "UnknownHint",
        LineFault::NotUnit => "NotUnit",
        LineFault::LastNotFalse => "LastNotFalse",
        LineFault::Tautology => "Tautology",
        LineFault::NotNew => "NotNew",
    }
}

/// Why a certificate isn't valid, or wasn't judged.
#[derive(Clone, Copy, Debug, PartialEq, Eq, Error)]
pub enum Fault {
    /// The circuit of a proof's chain has more gates than the limit, and nothing before that line is at fault.
    #[error("the circuit has too many gates")]
    TooManyGates,
    /// The certificate isn't valid.
    #[error("the certificate is at fault in line {line}")]
    Line {
        /// The first line at fault, from 1.
        line: u64,
        /// What is wrong with it.
        kind: Kind,
    },
    /// The allocator has no memory left.
    #[error("out of memory")]
    NoMemory,
}

impl From<AllocError> for Fault {
    ghost use Rattle.pv_valid.specs.declared.fault.Fault.TheVariants.{NoMemory};

    ghost from_gives = { λ _ fault. fault ≡ NoMemory };

    fn from(_error: AllocError) -> Fault {
        Fault::NoMemory
    }
}

/// What a valid certificate claims, and how the last scan of its trace ends, where it has one.
#[derive(Clone, Copy, Debug, PartialEq, Eq)]
pub struct Verdict {
    /// The claim.
    pub claim: Claim,
    /// How the last scan of the trace ends.
    pub ending: Option<Ending>,
}
