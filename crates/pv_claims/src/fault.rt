//! Why bytes are no certificate.
ghost use Rattle.std.specs.Prelude.{◌≡◌};
ghost use Rattle.pv_claims.specs.declared.fault.CertFault.TheVariants.{NoMemory};

use std::alloc::AllocError;
use thiserror::Error;

/// Why bytes are no certificate.
#[derive(Clone, Copy, Debug, PartialEq, Eq, Error)]
pub enum CertFault {
    /// The bytes are no certificate: `line` is the first line with which no certificate begins so,
    /// or the one behind the last where some certificate goes on. A line without its line feed
    /// begins none.
    #[error("no certificate has this line {line}")]
    NotACertificate {
        /// The line, from 1.
        line: u64,
    },
    /// The allocator has no memory left.
    #[error("out of memory")]
    NoMemory,
}

impl From<AllocError> for CertFault {
    ghost from_gives = { λ _ e. e ≡ NoMemory };

    fn from(_e: AllocError) -> CertFault {
        CertFault::NoMemory
    }
}
