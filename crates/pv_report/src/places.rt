//! Places as reports print them: FILE:LINE:COLUMN, by where the lines of each file begin.
ghost use Rattle.std.specs.Prelude.{◌≡◌, ◌++◌, ◌+◌, ◌-◌, List, map, length, IfOk, OnOk, string_bytes};
ghost use Rattle.std.specs.Fmt.{decimal};
ghost use Rattle.pv_report.specs.Places.{starts_behind, line_starts, begun_at, last_of, file_lines, position_text, place_text};
ghost use Rattle.pv_report.specs.Correct.{LiesIn};

use itoa::Buffer;
use pv_place::Place;
use std::alloc::{AllocError, Global};

/// A file, and where its lines begin.
#[derive(Drop)]
pub struct FileLines {
    pub file: String,
    /// How many bytes stand before each line: 0 first, and rising.
    pub starts: Vec<u64>,
}

/// The files that places lie in; a place's file is the number of one.
#[derive(Drop)]
pub struct Places {
    pub files: Vec<FileLines>,
}

/// Adds the places behind the line feeds of a text.
fn add_starts(starts: &mut Vec<u64>, bytes: &[u8]) -> Result<(), AllocError>
    ensures { OnOk result (starts.new.items ≡ starts.old.items ++ starts_behind 0 bytes.now) }
{
    for (at, byte) in bytes.iter().enumerate() {
        if *byte == b'\n' {
            starts.push(at as u64 + 1)?;
        }
    }
    Ok(())
}

/// How many of the lines begin no later than there, and where the last of them does.
fn line_at(starts: &[u64], offset: u64) -> (u64, u64)
    ensures line { result.0 ≡ length (begun_at offset starts.now) }
    ensures start { result.1 ≡ last_of (begun_at offset starts.now) }
{
    let mut line = 0;
    let mut last = 0;
    for start in starts {
        if *start <= offset {
            line += 1;
            last = *start;
        }
    }
    (line, last)
}

/// Puts a number behind a text.
pub(crate) fn push_number(text: &mut Vec<u8>, n: u64) -> Result<(), AllocError>
    ensures { OnOk result (text.new.items ≡ text.old.items ++ decimal n) }
{
    let mut buffer = Buffer::new();
    text.extend_from_slice(buffer.format(n).as_bytes())?;
    Ok(())
}

impl FileLines {
    /// The lines of a file with these bytes; each ends with a line feed alone.
    pub fn of(alloc: Global, file: &str, bytes: &[u8]) -> Result<FileLines, AllocError>
        ensures { IfOk result (λ lines. (string_bytes lines.file ≡ file.now)
            × (lines.starts.items ≡ line_starts bytes.now)) }
    {
        let mut starts = vec![in alloc; 0u64; 1]?;
        add_starts(&mut starts, bytes)?;
        let file = String::from_str(alloc, file)?;
        Ok(FileLines { file, starts })
    }

    /// Puts where something stands that begins behind so many bytes behind a text.
    fn push_position(&self, text: &mut Vec<u8>, offset: u32) -> Result<(), AllocError>
        ensures { OnOk result (text.new.items ≡ text.old.items ++ position_text (file_lines self.now) offset) }
    {
        let (line, start) = line_at(self.starts.as_slice(), u64::from(offset));
        text.extend_from_slice(self.file.as_bytes())?;
        text.push(b':')?;
        push_number(text, line)?;
        text.push(b':')?;
        push_number(text, column(start, offset))
    }
}

/// The column of a place in a line that begins there, from 1.
fn column(start: u64, offset: u32) -> u64
    ensures { result ≡ offset - start + 1 }
{
    u64::from(offset).saturating_sub(start) + 1
}

/// Puts a place behind a text.
pub(crate) fn push_place(
    text: &mut Vec<u8>,
    files: &[FileLines],
    place: Place,
) -> Result<(), AllocError>
    requires { LiesIn (map file_lines files.now) place }
    ensures { OnOk result (text.new.items ≡ text.old.items ++ place_text (map file_lines files.now) place) }
{
    match files.get(place.file as usize) {
        Some(file) => file.push_position(text, place.offset),
        None => unreachable!(),
    }
}
