//! The files and the sink of a row.
use crate::case::case_of;
use pv_edge::{MemFiles, MemSink, Text, text};
use pv_rows_form::{expanded, numbers};
use std::alloc::{AllocError, Global};

/// How many bytes a sink takes at each call, where the row doesn't say.
const PIECE: usize = 5;

/// Adds a file of this name and text, which have a blank between them. The first file of a name counts.
fn add_file(
    alloc: Global,
    files: &mut Vec<(Text, Vec<u8>)>,
    setting: &str,
    row: &str,
) -> Result<(), AllocError> {
    let (name, said) = setting.split_once(' ').unwrap_or((setting, ""));
    let name = text(alloc, name.as_bytes())?;
    files.insert(0, (name, expanded(alloc, said, row)?))?;
    Ok(())
}

/// The text with a line feed in the place of each `/`, and one at its end.
fn lines_of(alloc: Global, bytes: &[u8]) -> Result<Vec<u8>, AllocError> {
    let mut out = Vec::with_capacity(alloc, bytes.len())?;
    for byte in bytes {
        out.push(if *byte == b'/' { b'\n' } else { *byte })?;
    }
    out.push(b'\n')?;
    Ok(out)
}

/// Adds a file of lines.
fn add_lines(
    alloc: Global,
    files: &mut Vec<(Text, Vec<u8>)>,
    setting: &str,
    row: &str,
) -> Result<(), AllocError> {
    let (name, said) = setting.split_once(' ').unwrap_or((setting, ""));
    let name = text(alloc, name.as_bytes())?;
    let bytes = expanded(alloc, said, row)?;
    files.insert(0, (name, lines_of(alloc, &bytes)?))?;
    Ok(())
}

/// Adds a line to the file that was named last.
fn add_line(
    alloc: Global,
    files: &mut Vec<(Text, Vec<u8>)>,
    line: &str,
    row: &str,
) -> Result<(), AllocError> {
    let bytes = expanded(alloc, line, row)?;
    if let Some(file) = files.first_mut() {
        file.1.extend_from_slice(&bytes)?;
        file.1.push(b'\n')?;
    }
    Ok(())
}

/// Does what a line says of files.
fn add(
    alloc: Global,
    files: &mut Vec<(Text, Vec<u8>)>,
    line: &str,
    row: &str,
) -> Result<(), AllocError> {
    if let Some(more) = line.strip_prefix('|') {
        return add_line(alloc, files, more, row);
    }
    if let Some(setting) = line.strip_prefix("file ") {
        return add_file(alloc, files, setting, row);
    }
    if let Some(setting) = line.strip_prefix("lines ") {
        return add_lines(alloc, files, setting, row);
    }
    Ok(())
}

/// The files: `c.json` the case, and those that the settings name.
pub fn files_of(alloc: Global, head: &str, row: &str) -> Result<MemFiles, AllocError> {
    let mut files = Vec::new(alloc);
    files.push((text(alloc, b"c.json")?, case_of(alloc, head, row)?))?;
    for line in head.split('\n') {
        add(alloc, &mut files, line, row)?;
    }
    Ok(MemFiles {
        files,
        calls: 0,
        fail_at: numbers(alloc, head, "fail read", row)?,
        read_faults: 0,
        unread: None,
        write_faults: 0,
    })
}

/// The sink.
pub fn sink_of(alloc: Global, head: &str, row: &str) -> Result<MemSink, AllocError> {
    let sizes = numbers(alloc, head, "piece", row)?;
    let piece = match sizes.first() {
        Some(size) => usize::try_from(*size).unwrap_or(PIECE),
        None => PIECE,
    };
    Ok(MemSink {
        taken: Vec::new(alloc),
        piece,
        calls: 0,
        fail_at: numbers(alloc, head, "fail write", row)?,
        faults: 0,
    })
}
