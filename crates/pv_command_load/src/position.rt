//! Places as they are printed.
ghost use Rattle.std.specs.Prelude.{◌≡◌, IfOk, map, string_bytes};
ghost use Rattle.pv_command_load.specs.Positions.{line_behind, column_behind, position_text, place_text, LiesAmong};
ghost use Rattle.pv_command_load.specs.Stops.{at_text, text_tree};

use pv_place::Place;
use std::alloc::{AllocError, Global};

/// A source: its file's name, and the bytes that the file held.
#[derive(Drop)]
pub struct SourceText {
    pub file: String,
    pub bytes: Vec<u8>,
}

/// A place as it is printed: the file's name, and the line and the column from 1. A line ends with a line feed alone, and a column is
/// a byte.
#[derive(Debug, Drop)]
pub struct SourcePosition {
    pub file: String,
    pub line: u64,
    pub column: u64,
}

/// The line and the column of what stands behind these bytes.
fn line_and_column(before: &[u8]) -> (u64, u64)
    ensures line { result.0 ≡ line_behind before.now }
    ensures column { result.1 ≡ column_behind before.now }
{
    let mut line = 1u64;
    let mut column = 1u64;
    for byte in before {
        if *byte == b'\n' {
            line += 1;
            column = 1;
        } else {
            column += 1;
        }
    }
    (line, column)
}

impl SourceText {
    /// Where something stands that begins behind so many bytes.
    pub fn position(&self, alloc: Global, offset: u32) -> Result<SourcePosition, AllocError>
        ensures { IfOk result (λ at. at_text at ≡ position_text (text_tree self.now) offset) }
    {
        let bytes = self.bytes.as_slice();
        let (before, _behind) = bytes.split_at(usize::min(offset as usize, bytes.len()));
        let (line, column) = line_and_column(before);
        let file = String::from_str(alloc, self.file.as_str())?;
        Ok(SourcePosition { file, line, column })
    }
}

impl SourcePosition {
    /// Where a place lies that is in one of these sources, whose numbers are those of its files.
    pub fn of(
        alloc: Global,
        sources: &[SourceText],
        place: Place,
    ) -> Result<SourcePosition, AllocError>
        requires { LiesAmong (map text_tree sources.now) place }
        ensures { IfOk result (λ at. at_text at ≡ place_text (map text_tree sources.now) place) }
    {
        match sources.get(place.file as usize) {
            Some(source) => source.position(alloc, place.offset),
            None => unreachable!(),
        }
    }

    /// `FILE:LINE:COLUMN`.
    pub fn text(&self, alloc: Global) -> Result<String, AllocError>
        ensures { IfOk result (λ text. string_bytes text ≡ at_text self.now) }
    {
        let file = &self.file;
        let line = self.line;
        let column = self.column;
        format!(in alloc; "{file}:{line}:{column}")
    }
}
