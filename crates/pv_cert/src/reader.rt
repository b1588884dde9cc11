//! Reading a certificate.
ghost use Rattle.std.specs.Prelude.{◌≡◌, ℕ, ◌+◌, List, ◌++◌, length, Ok, Err, IfOk};
ghost use Rattle.std.specs.List.{AllByRecursion};
ghost use Rattle.pv_claims.specs.Lines.{NoFeed, text_of_lines};
ghost use Rattle.pv_cert.specs.declared.certificate.Certificate.{Certificate};
ghost use Rattle.pv_cert.specs.CertificateText.{IsTextOf, IsWritable, FailsAt, IsUnlessNoMemory};
ghost use Rattle.pv_cert.specs.Reading.{Reads};

use crate::certificate::Certificate;
use crate::parts::whole;
use pv_claims::{CertFault, Stop, cut_line};
use std::alloc::Global;

/// The line at whose beginning so many bytes are left, from 1.
fn line_at(text: &[u8], left: usize) -> u64
    ensures { (before : List (List ℕ)) (rest : List ℕ) → text.now ≡ text_of_lines before ++ rest
        → AllByRecursion NoFeed before
        → left ≡ length rest → result ≡ length before + 1 }
{
    let mut rest = text;
    let mut line = 1;
    while rest.len() > left {
        let Some(cut) = cut_line(rest) else {
            return line;
        };
        rest = cut.1;
        line += 1;
    }
    line
}

/// Reads the whole.
fn read_parts(alloc: Global, bytes: &[u8]) -> Result<Certificate, CertFault>
    ensures { Reads bytes.now result }
{
    match whole(alloc, bytes) {
        Ok(certificate) => Ok(certificate),
        Err(Stop::Left(left)) => Err(CertFault::NotACertificate {
            line: line_at(bytes, left),
        }),
        Err(Stop::NoMemory) => Err(CertFault::NoMemory),
    }
}

/// Reads the text of a certificate. A number has 32 bits, that of a region 64, and a value 128,
/// without needless zeros or signs; the cells of a chain rise; a claim has as many scans as it
/// says; and each line ends with a line feed alone. How many values a line has, and whether queries
/// and cells belong to a case, isn't asked here.
pub fn read(alloc: Global, bytes: &[u8]) -> Result<Certificate, CertFault>
    // What is read has this text, and what has this text is read.
    ensures found { IfOk result (IsTextOf bytes.now) }
    ensures complete { (c : Certificate) → IsTextOf bytes.now c → IsUnlessNoMemory result (Ok c) }
    // `write` takes what is read.
    ensures writable { IfOk result IsWritable }
    // A refusal names the first line with which no certificate begins so, and where there is one it is refused.
    ensures stuck { (line : ℕ) → result ≡ Err (CertFault.NotACertificate line)
        → FailsAt bytes.now line }
    ensures refused { (line : ℕ) → FailsAt bytes.now line
        → IsUnlessNoMemory result (Err (CertFault.NotACertificate line)) }
{
    read_parts(alloc, bytes)
}
