//! Which certificates say the next lemma.
ghost use Rattle.std.specs.Prelude.{◌≡◌};
ghost use Rattle.pv_cert.specs.CertificateText.{asks_next};

use pv_claims::Claim;

/// Whether a certificate with this claim says which lemma comes next: that of a region does.
pub(crate) fn asks_next(claim: Claim) -> bool
    ensures { result ≡ asks_next claim }
{
    match claim {
        Claim::Region(_) => true,
        _ => false,
    }
}
