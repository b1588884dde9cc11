//! The text of a row's case.
use pv_rows_form::{expanded, last};
use std::alloc::{AllocError, Global};

/// The members of each case. Of a doubled member the last one counts, so a row's own stand after these.
const FRONT: &str =
    "{\"version\":1,\"name\":\"t\",\"sources\":[{\"file\":\"a.scl\",\"language\":\"scl\"}],\
\"entry\":\"Demo\",\"loopBound\":16,\"depth\":3,\"lemmas\":100000,\"regionWords\":1000000,\"reduce\":[]";

/// Puts a text of JSON that says these bytes, of which none is below 32.
fn put_quoted(out: &mut Vec<u8>, bytes: &[u8]) -> Result<(), AllocError> {
    out.push(b'"')?;
    for byte in bytes {
        if matches!(byte, b'"' | b'\\') {
            out.push(b'\\')?;
        }
        out.push(*byte)?;
    }
    out.push(b'"')?;
    Ok(())
}

/// The member's name of a text of a requirement that has this number, and what stands before it.
fn name_of(number: usize) -> &'static [u8] {
    match number {
        0 => b"\"kind\":",
        1 => b",\"a\":",
        2 => b",\"b\":",
        _ => b",\"c\":",
    }
}

/// Puts the requirement: its kind and its texts, with `|` between them; an empty text is none.
fn put_pattern(
    alloc: Global,
    out: &mut Vec<u8>,
    pattern: &str,
    row: &str,
) -> Result<(), AllocError> {
    out.extend_from_slice(b",\"pattern\":{")?;
    for (i, text) in pattern.split('|').enumerate() {
        let bytes = expanded(alloc, text.trim(), row)?;
        if !bytes.is_empty() {
            out.extend_from_slice(name_of(i))?;
            put_quoted(out, &bytes)?;
        }
    }
    out.push(b'}')?;
    Ok(())
}

/// The text of the case: the members of each case, the requirement, and those of the row.
pub fn case_of(alloc: Global, head: &str, row: &str) -> Result<Vec<u8>, AllocError> {
    let mut out = Vec::from_slice(alloc, FRONT.as_bytes())?;
    let pattern = last(head, "pattern").unwrap_or("invariant | NOT q");
    put_pattern(alloc, &mut out, pattern, row)?;
    let mut members = expanded(alloc, last(head, "with").unwrap_or(""), row)?;
    if !members.is_empty() {
        out.push(b',')?;
        out.append(&mut members)?;
    }
    out.push(b'}')?;
    Ok(out)
}
