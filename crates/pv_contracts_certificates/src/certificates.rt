//! Calls of pv_cert.
ghost use Rattle.std.specs.Prelude.{◌≡◌, ℕ, [], ◌∷◌, ◌++◌, Ok, Err, IfOk, OnOk, OnErr};
ghost use Rattle.std.specs.List.{AllByRecursion};
ghost use Rattle.pv_cert.specs.declared.certificate.Certificate.{Certificate};
ghost use Rattle.pv_claims.specs.TracePart.{HasForm, trace_form};
ghost use Rattle.pv_cert.specs.CertificateText.{FailsAt, IsTextOf, IsUnlessNoMemory, IsWritable, IsWritableNext, IsWritableProof, asks_next, certificate_text};

use pv_cert::{Certificate, Proof, Proofs};
use pv_claims::CertFault;
use std::alloc::{AllocError, Global};

/// [`pv_cert::read`].
pub fn read(alloc: Global, bytes: &[u8]) -> Result<Certificate, CertFault>
    ensures found { IfOk result (IsTextOf bytes.now) }
    ensures complete { (c : Certificate) → IsTextOf bytes.now c → IsUnlessNoMemory result (Ok c) }
    ensures writable { IfOk result IsWritable }
    ensures stuck { (line : ℕ) → result ≡ Err (CertFault.NotACertificate line) → FailsAt bytes.now line }
    ensures refused { (line : ℕ) → FailsAt bytes.now line → IsUnlessNoMemory result (Err (CertFault.NotACertificate line)) }
{
    pv_cert::read(alloc, bytes)
}

/// [`pv_cert::write`].
pub fn write(alloc: Global, certificate: &Certificate) -> Result<Vec<u8>, AllocError>
    requires trace { HasForm (trace_form certificate.now.claim) certificate.now.trace }
    requires next { IsWritableNext (asks_next certificate.now.claim) certificate.now.next }
    requires proofs { AllByRecursion IsWritableProof certificate.now.proofs }
    ensures text { IfOk result (λ text. text.items ≡ certificate_text certificate.now) }
    ensures is_text { IfOk result (λ text. IsTextOf text.items certificate.now) }
{
    pv_cert::write(alloc, certificate)
}

/// [`Proofs::push`].
pub fn push_proof(proofs: &mut Proofs, proof: Proof) -> Result<(), AllocError>
    ensures ok { OnOk result (proofs.new ≡ proofs.old ++ proof ∷ []) }
    ensures err { OnErr result (proofs.new ≡ proofs.old) }
{
    proofs.push(proof)
}
