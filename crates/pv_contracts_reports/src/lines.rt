//! Lines of files of pv_report.
ghost use Rattle.std.specs.Prelude.{◌≡◌, IfOk, string_bytes};
ghost use Rattle.pv_report.specs.Places.{line_starts};

use pv_report::FileLines;
use std::alloc::{AllocError, Global};

/// [`FileLines::of`].
pub fn lines_of(alloc: Global, file: &str, bytes: &[u8]) -> Result<FileLines, AllocError>
    ensures { IfOk result (λ lines. (string_bytes lines.file ≡ file.now)
        × (lines.starts.items ≡ line_starts bytes.now)) }
{
    FileLines::of(alloc, file, bytes)
}
