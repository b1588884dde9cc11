//! What a recheck says of the certificate that a check kept, and of it without its last line.
use crate::files::sink_of;
use crate::ran::Ran;
use crate::telling::tell_status;
use pv_edge::{MemFiles, MemSink, Text, text};
use pv_rows_form::{Row, Told, last};
use pv_top::{Status, run};
use std::alloc::{AllocError, Global};

/// The status of a certificate that is refused.
const REFUSED: Status = 8;

/// The words of the recheck.
fn words(alloc: Global) -> Result<Vec<String>, AllocError> {
    let mut list = Vec::new(alloc);
    list.push(String::from_str(alloc, "recheck")?)?;
    list.push(String::from_str(alloc, "c.json")?)?;
    list.push(String::from_str(alloc, "k.txt")?)?;
    Ok(list)
}

/// The status of a recheck by the same case of these bytes, put into the file `k.txt`, with what the sink took.
fn recheck(
    alloc: Global,
    row: Row<'_>,
    files: &mut MemFiles,
    bytes: &[u8],
) -> Result<(Status, MemSink), AllocError> {
    let words = words(alloc)?;
    let mut out = sink_of(alloc, row.head, row.text)?;
    let mut kept = Text::from(Vec::new(alloc));
    let name = text(alloc, b"k.txt")?;
    let bytes = Vec::from_slice(alloc, bytes)?;
    files.files.insert(0, (name, bytes))?;
    let status = run(alloc, &words, files, &mut out, &mut kept);
    Ok((status, out))
}

/// Tells the one text where the answer is as it has to be, and else the answer.
fn tell_answer(good: bool, text: &str, answer: &(Status, MemSink), told: &mut Told) {
    told.text(" ");
    if good {
        told.text(text);
    } else {
        tell_status(answer.0, told);
        told.bytes(answer.1.taken.as_slice());
    }
}

/// The fault line of a certificate that ends before its last line: that is the first line at fault.
fn cut_line(alloc: Global, certificate: &[u8]) -> Result<String, AllocError> {
    let mut lines = 0u64;
    for byte in certificate {
        if *byte == b'\n' {
            lines = lines.saturating_add(1);
        }
    }
    format!(in alloc; "plcv: certificate: line {lines} NotACertificate\n")
}

/// Tells what a recheck of what is kept says, where the row wants it: `same` where it is what the check said; and of it without its last
/// line, `cut` where that line is told as the first at fault.
pub fn tell_again(row: Row<'_>, ran: &mut Ran, told: &mut Told) -> Result<(), AllocError> {
    if last(row.head, "again").is_none() {
        return Ok(());
    }
    let alloc = told.alloc();
    let certificate = Vec::from_slice(alloc, ran.kept.bytes())?;
    let whole = recheck(alloc, row, &mut ran.files, &certificate)?;
    let same = whole.0 == ran.status && whole.1.taken.as_slice() == ran.out.taken.as_slice();
    told.text(" again");
    tell_answer(same, "same", &whole, told);
    let front = certificate
        .as_slice()
        .strip_suffix(b"end\n")
        .unwrap_or(certificate.as_slice());
    let part = recheck(alloc, row, &mut ran.files, front)?;
    let line = cut_line(alloc, &certificate)?;
    let cut = part.0 == REFUSED && part.1.taken.as_slice() == line.as_bytes();
    tell_answer(cut, "cut", &part, told);
    Ok(())
}
