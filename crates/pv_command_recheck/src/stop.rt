//! Why a recheck stops before its report.
ghost use Rattle.std.specs.Prelude.{◌≡◌, Some, IfOk, string_bytes};
ghost use Rattle.pv_command_verdict.specs.Handed.{stopped_status, stopped_text};
ghost use Rattle.pv_command_recheck.specs.Certificates as certificates;
ghost use Rattle.pv_command_recheck.specs.Certificates.{certificate_status, certificate_line, certificate_stopped};
ghost use Rattle.pv_command_recheck.specs.Rechecks.{recheck_stop_status, recheck_stop_text};
ghost use Rattle.pv_command_recheck.specs.declared.stop.CertificateStop.TheVariants as certificate_stop;
ghost use Rattle.pv_command_recheck.specs.declared.stop.RecheckStop.TheVariants.{First as At_first, Certificate as At_certificate, NoMemory};

use pv_cert::CertFault;
use pv_command_verdict::{
    FirstStop, NO_MEMORY, READ_FAULT, ReadStop, SOURCE_REFUSED, Status, TEXT_REFUSED, edges_line,
    gates_line, read_line,
};
use pv_valid::{Fault, Kind};
use std::alloc::{AllocError, Global};
use thiserror::Error;

/// Why a recheck stops at its certificate.
#[derive(Debug, Drop, Error)]
pub enum CertificateStop {
    /// Its file can't be read.
    #[error("{file} can't be read")]
    Unread { file: String },
    /// The certificate isn't valid: its first line at fault, from 1, and what is wrong with it.
    #[error("line {line} of the certificate is at fault")]
    Faulty { line: u64, kind: Kind },
    /// It is a certificate's text, and the block has more assignments than an automaton may have edges.
    #[error("the block has too many edges")]
    TooManyEdges,
    /// The circuit of a proof has more gates than there may be, and nothing before its log is at fault.
    #[error("the circuit has too many gates")]
    TooManyGates,
    #[error("out of memory")]
    NoMemory,
}

impl From<AllocError> for CertificateStop {
    ghost from_gives = { λ _ stop. stop ≡ certificate_stop.NoMemory };

    fn from(_error: AllocError) -> CertificateStop {
        CertificateStop::NoMemory
    }
}

impl From<ReadStop> for CertificateStop {
    ghost use Rattle.std.specs.Prelude.{◌≡◌};
    ghost use Rattle.pv_command_recheck.specs.Made.{unread_certificate};

    ghost from_gives = { λ stop passed. passed ≡ unread_certificate stop };

    fn from(stop: ReadStop) -> CertificateStop {
        match stop {
            ReadStop::Unread { file } => CertificateStop::Unread { file },
            ReadStop::NoMemory => CertificateStop::NoMemory,
        }
    }
}

impl From<CertFault> for CertificateStop {
    ghost use Rattle.std.specs.Prelude.{◌≡◌};
    ghost use Rattle.pv_command_recheck.specs.Made.{no_certificate};

    ghost from_gives = { λ fault passed. passed ≡ no_certificate fault };

    fn from(fault: CertFault) -> CertificateStop {
        match fault {
            CertFault::NotACertificate { line } => CertificateStop::Faulty {
                line,
                kind: Kind::NotACertificate,
            },
            CertFault::NoMemory => CertificateStop::NoMemory,
        }
    }
}

impl From<Fault> for CertificateStop {
    ghost use Rattle.std.specs.Prelude.{◌≡◌};
    ghost use Rattle.pv_command_recheck.specs.Made.{stop_by};

    ghost from_gives = { λ fault passed. passed ≡ stop_by fault };

    fn from(fault: Fault) -> CertificateStop {
        match fault {
            Fault::TooManyGates => CertificateStop::TooManyGates,
            Fault::Line { line, kind } => CertificateStop::Faulty { line, kind },
            Fault::NoMemory => CertificateStop::NoMemory,
        }
    }
}

fn fault_line(alloc: Global, line: u64, kind: Kind) -> Result<String, AllocError>
    ensures { IfOk result (λ text. string_bytes text ≡ certificates.fault_line line kind) }
{
    let kind = kind.name();
    format!(in alloc; "plcv: certificate: line {line} {kind}\n")
}

impl CertificateStop {
    pub fn status(&self) -> Status
        ensures { result ≡ stopped_status certificate_status (certificate_stopped self.now) }
    {
        match self {
            CertificateStop::Unread { .. } => READ_FAULT,
            CertificateStop::Faulty { .. } => TEXT_REFUSED,
            CertificateStop::TooManyEdges => SOURCE_REFUSED,
            CertificateStop::TooManyGates => SOURCE_REFUSED,
            CertificateStop::NoMemory => NO_MEMORY,
        }
    }

    /// The fault line; an error where memory ends, or ended before.
    pub fn text(&self, alloc: Global) -> Result<String, AllocError>
        ensures { IfOk result (λ text. stopped_text certificate_line (certificate_stopped self.now) ≡ Some (string_bytes text)) }
    {
        match self {
            CertificateStop::Unread { file } => read_line(alloc, file),
            CertificateStop::Faulty { line, kind } => fault_line(alloc, *line, *kind),
            CertificateStop::TooManyEdges => edges_line(alloc),
            CertificateStop::TooManyGates => gates_line(alloc),
            CertificateStop::NoMemory => Err(AllocError),
        }
    }
}

/// Why a recheck stops before its report.
#[derive(Debug, Drop, Error)]
pub enum RecheckStop {
    /// At what it works on.
    #[error(transparent)]
    First(FirstStop),
    /// At its certificate.
    #[error(transparent)]
    Certificate(CertificateStop),
    #[error("out of memory")]
    NoMemory,
}

impl From<AllocError> for RecheckStop {
    ghost from_gives = { λ _ stop. stop ≡ NoMemory };

    fn from(_error: AllocError) -> RecheckStop {
        RecheckStop::NoMemory
    }
}

impl From<FirstStop> for RecheckStop {
    ghost from_gives = { λ stop passed. passed ≡ At_first stop };

    fn from(stop: FirstStop) -> RecheckStop {
        RecheckStop::First(stop)
    }
}

impl From<CertificateStop> for RecheckStop {
    ghost from_gives = { λ stop passed. passed ≡ At_certificate stop };

    fn from(stop: CertificateStop) -> RecheckStop {
        RecheckStop::Certificate(stop)
    }
}

impl RecheckStop {
    pub fn status(&self) -> Status
        ensures { result ≡ recheck_stop_status self.now }
    {
        match self {
            RecheckStop::First(stop) => stop.status(),
            RecheckStop::Certificate(stop) => stop.status(),
            RecheckStop::NoMemory => NO_MEMORY,
        }
    }

    /// The fault line; an error where memory ends, or ended before.
    pub fn text(&self, alloc: Global) -> Result<String, AllocError>
        ensures { IfOk result (λ text. recheck_stop_text self.now ≡ Some (string_bytes text)) }
    {
        match self {
            RecheckStop::First(stop) => stop.text(alloc),
            RecheckStop::Certificate(stop) => stop.text(alloc),
            RecheckStop::NoMemory => Err(AllocError),
        }
    }
}
