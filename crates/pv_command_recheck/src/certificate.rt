//! The stage of a recheck that reads its certificate.
ghost use Rattle.std.specs.Prelude.{◌≡◌, IfOk, IfErr, MatchResult};
ghost use Rattle.pv_cert.specs.CertificateText.{IsTextOf};
ghost use Rattle.pv_command_verdict.specs.Handed.{Counts, HoldsBytes, IsUnread, stopped_status, stopped_unread, SubjectData};
ghost use Rattle.pv_command_recheck.specs.Certificates.{certificate_status, certificate_stopped, StopsCertificate};

use crate::stop::CertificateStop;
use pv_cert::Certificate;
use pv_command_verdict::read;
use pv_edge::Files;
use std::alloc::Global;

/// The certificate that the file holds the text of.
pub(crate) fn certificate_in<F: Files>(
    alloc: Global,
    files: &mut F,
    file: &str,
) -> Result<Certificate, CertificateStop>
    ensures files { F.told files.new ≡ F.told files.old }
    ensures found { IfOk result (λ c. HoldsBytes (F.told files.old) file.now (λ bytes. IsTextOf bytes c)) }
    ensures stopped { IfErr result (λ stop. (s : SubjectData) → StopsCertificate (F.told files.old) file.now s stop) }
    ensures counted { MatchResult result
        (λ c. F.read_faults files.new ≡ F.read_faults files.old)
        (λ stop. Counts (stopped_status certificate_status (certificate_stopped stop)) (F.read_faults files.old) (F.read_faults files.new)) }
    ensures named { IfErr result (λ stop. IsUnread (stopped_unread (certificate_stopped stop)) (F.unread files.new)) }
    ensures writes { F.write_faults files.new ≡ F.write_faults files.old }
{
    let bytes = read(alloc, files, file)?;
    let certificate = pv_cert::read(alloc, bytes.as_slice())?;
    Ok(certificate)
}
