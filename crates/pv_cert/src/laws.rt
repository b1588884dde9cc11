//! A law of texts: each is that of one certificate.
ghost use Rattle.std.specs.Prelude.{◌≡◌, ℕ, List};
ghost use Rattle.pv_cert.specs.declared.certificate.Certificate.{Certificate};
ghost use Rattle.pv_cert.specs.CertificateText.{IsTextOf};

/// A law: a text is that of at most one certificate.
pub fn text_determines_certificate()
    ensures { (bytes : List ℕ) (certificate other : Certificate) → IsTextOf bytes certificate
        → IsTextOf bytes other → certificate ≡ other }
{}
