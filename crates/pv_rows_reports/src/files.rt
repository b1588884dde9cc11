//! The files of a row: its case and its source.
use pv_edge::{MemFiles, Text, text};
use pv_rows_form::{Row, Told};
use std::alloc::{AllocError, Global};

/// What stands before the name of its source's file in each case, and what stands behind it. Of a doubled member the last one counts, and
/// a row's own stand last.
const FRONT: &str = "{\"version\":1,\"name\":\"t\",\"entry\":\"Demo\",\"loopBound\":16,\"depth\":3,\
\"lemmas\":100000,\"regionWords\":1000000,\"reduce\":[],\"sources\":[{\"file\":\"";

const BEHIND: &str = "\",\"language\":\"scl\"}],";

/// The text of a case whose source is in this file, with these members.
fn case_of(alloc: Global, file: &[u8], members: &[u8]) -> Result<Vec<u8>, AllocError> {
    let mut out = Vec::from_slice(alloc, FRONT.as_bytes())?;
    out.extend_from_slice(file)?;
    out.extend_from_slice(BEHIND.as_bytes())?;
    out.extend_from_slice(members)?;
    out.push(b'}')?;
    Ok(out)
}

/// The text with a line feed in the place of each `/`.
fn lines_of(alloc: Global, bytes: &[u8]) -> Result<Vec<u8>, AllocError> {
    let mut out = Vec::with_capacity(alloc, bytes.len())?;
    for byte in bytes {
        out.push(if *byte == b'/' { b'\n' } else { *byte })?;
    }
    Ok(out)
}

/// Adds the case and its source.
fn add_both(
    alloc: Global,
    files: &mut Vec<(Text, Vec<u8>)>,
    name: &[u8],
    lines: &[u8],
    members: &[u8],
) -> Result<(), AllocError> {
    files.push((text(alloc, b"c.json")?, case_of(alloc, name, members)?))?;
    files.push((text(alloc, name)?, lines_of(alloc, lines)?))?;
    Ok(())
}

/// The files: `c.json` the case, and its source.
pub fn files_of(row: Row<'_>, told: &mut Told) -> MemFiles {
    let alloc = told.alloc();
    let name = row.setting("file", told);
    let lines = row.setting("lines", told);
    let members = row.setting("with", told);
    let mut files = Vec::new(alloc);
    if add_both(alloc, &mut files, &name, &lines, &members).is_err() {
        told.lose();
    }
    MemFiles {
        files,
        calls: 0,
        fail_at: Vec::new(alloc),
        read_faults: 0,
        unread: None,
        write_faults: 0,
    }
}
