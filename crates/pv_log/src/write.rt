//! Writing the text of a line.
ghost use Rattle.std.specs.Prelude.{◌≡◌, ℕ, ◌^◌, ◌<◌, ◌≤◌, List, ◌++◌, codes, IfOk, OnOk};
ghost use Rattle.std.specs.List.{AllByRecursion};
ghost use Rattle.std.specs.Fmt.{decimal};
ghost use Rattle.pv_cnf.specs.Dimacs.{literal_text};
ghost use Rattle.pv_log.specs.LineText.{literals_text, hints_text, line_text, Spells};

use crate::line::Line;
use itoa::Buffer;
use std::alloc::{AllocError, Global};

fn push_number(text: &mut Vec<u8>, n: u32) -> Result<(), AllocError>
    ensures text { OnOk result (text.new.items ≡ text.old.items ++ decimal n) }
    ensures fits { n < 2 ^ 32 }
{
    let mut buffer = Buffer::new();
    text.extend_from_slice(buffer.format(n).as_bytes())
}

fn push_literal(text: &mut Vec<u8>, lit: u32) -> Result<(), AllocError>
    ensures { OnOk result (text.new.items ≡ text.old.items ++ literal_text lit) }
{
    if lit % 2 == 1 {
        text.push(b'-')?;
    }
    push_number(text, lit / 2)
}

fn push_literals(text: &mut Vec<u8>, lits: &[u32]) -> Result<(), AllocError>
    ensures text { OnOk result (text.new.items ≡ text.old.items ++ literals_text lits.now) }
    ensures fits { OnOk result (AllByRecursion (λ lit. lit < 2 ^ 32) lits.now) }
{
    for lit in lits {
        push_literal(text, *lit)?;
        text.push(b' ')?;
    }
    Ok(())
}

fn push_hints(text: &mut Vec<u8>, hints: &[u32]) -> Result<(), AllocError>
    ensures text { OnOk result (text.new.items ≡ text.old.items ++ hints_text hints.now) }
    ensures fits { OnOk result (AllByRecursion (λ hint. hint < 2 ^ 32) hints.now) }
{
    for hint in hints {
        push_number(text, *hint)?;
        text.push(b' ')?;
    }
    Ok(())
}

/// The one text of a line, without its line feed: the id, the literals as signed numbers, 0, the hints, 0.
pub fn write_line(alloc: Global, line: &Line) -> Result<Vec<u8>, AllocError>
    requires lits { AllByRecursion (λ lit. 2 ≤ lit) line.now.lits }
    requires hints { AllByRecursion (λ hint. 1 ≤ hint) line.now.hints }
    ensures text { IfOk result (λ text. text.items ≡ line_text line.now) }
    // `read_line` gives the line back.
    ensures spells { IfOk result (λ text. Spells text.items line.now) }
{
    let mut text = Vec::new(alloc);
    push_number(&mut text, line.id)?;
    text.push(b' ')?;
    push_literals(&mut text, line.lits.as_slice())?;
    text.extend_from_slice(b"0 ")?;
    push_hints(&mut text, line.hints.as_slice())?;
    text.push(b'0')?;
    Ok(text)
}
