//! Writing a trace.
ghost use Rattle.std.specs.Prelude.{◌≡◌, ◌++◌, None, IfOk, OnOk, map};
ghost use Rattle.std.specs.List.{flat_map};
ghost use Rattle.pv_claims.specs.Lines.{text_of_lines};
ghost use Rattle.pv_trace.specs.TraceText.{values_text, scan_line, trace_text};

use itoa::Buffer;
use pv_claims::{CellValues, Trace};
use std::alloc::{AllocError, Global};

/// Puts the values behind a text, a blank before each.
fn push_values(text: &mut Vec<u8>, values: &[i128]) -> Result<(), AllocError>
    ensures { OnOk result (text.new.items ≡ text.old.items ++ values_text values.now) }
{
    for value in values {
        let mut buffer = Buffer::new();
        text.push(b' ')?;
        text.extend_from_slice(buffer.format(*value).as_bytes())?;
    }
    Ok(())
}

fn push_scans(text: &mut Vec<u8>, scans: &[CellValues]) -> Result<(), AllocError>
    ensures { OnOk result (text.new.items ≡ text.old.items ++ text_of_lines (map scan_line scans.now)) }
{
    for values in scans {
        text.extend_from_slice(b"scan")?;
        push_values(text, values.as_slice())?;
        text.push(b'\n')?;
    }
    Ok(())
}

/// The one text of a trace that begins at the start: it has no image and no value of a scan before. `read_trace` gives
/// it back where its params and all its scans lie within the ranges handed to it.
pub fn write_trace(alloc: Global, trace: &Trace) -> Result<Vec<u8>, AllocError>
    requires image { trace.now.image ≡ None }
    requires prev { trace.now.prev ≡ None }
    ensures { IfOk result (λ text. text.items ≡ trace_text trace.now) }
{
    let mut text = Vec::new(alloc);
    text.extend_from_slice(b"PLCVTRACE 1\nparams")?;
    push_values(&mut text, trace.params.as_slice())?;
    text.push(b'\n')?;
    push_scans(&mut text, trace.inputs.as_slice())?;
    text.extend_from_slice(b"end\n")?;
    Ok(text)
}
