//! Reading the text of a line.
ghost use Rattle.std.specs.Prelude.{◌≡◌, ◌⊎◌, ℕ, ◌<◌, List, [], ◌∷◌, true, false, Some, None, Ok, Err, IfOk, OnOk, IfSome};
ghost use Rattle.std.specs.Option.{option_map};
ghost use Rattle.pv_log.specs.declared.line.Line.{Line};
ghost use Rattle.pv_log.specs.LineText.{Spells, IsWritable, IsStuckAt, IsUnlessNoMemory};
ghost use Rattle.pv_log.specs.Reading.{StageFits, Reads, after_byte, code_of, with_number};

use crate::fault::LratFault;
use crate::line::Line;
use crate::numbers::Numbers;
use crate::stage::Stage;
use std::alloc::{AllocError, Global};

/// The code of a literal.
fn code(negated: bool, variable: u32) -> u32
    requires { variable < 2147483648 }
    ensures { result ≡ code_of negated variable }
{
    2 * variable + negated as u32
}

/// Puts the number that a blank ends into the line.
fn end_number(line: &mut Line, stage: Stage) -> Result<(), AllocError>
    requires { StageFits stage }
    ensures { OnOk result (line.new ≡ with_number line.old stage) }
{
    match stage {
        Stage::Id(n) => line.id = n,
        Stage::Literal(negated, n) => line.lits.push(code(negated, n))?,
        Stage::Hint(n) => line.hints.push(n)?,
        _ => {}
    }
    Ok(())
}

/// Reads a byte: the next stage, if some line goes on so.
fn read_byte(line: &mut Line, stage: Stage, byte: u8) -> Result<Option<Stage>, AllocError>
    requires { StageFits stage }
    ensures fits { IfOk result (λ next. IfSome next StageFits) }
    ensures read { IfOk result (λ next. option_map (λ s. (line.new, s)) next ≡ after_byte (line.old, stage) byte) }
{
    let next = stage.after(byte);
    if next.is_some() && byte == b' ' {
        end_number(line, stage)?;
    }
    Ok(next)
}

/// Reads all the bytes.
fn read(alloc: Global, text: &[u8]) -> Result<Line, LratFault>
    ensures { Reads text.now result }
{
    let mut line = Line {
        id: 0,
        lits: Numbers::new(alloc),
        hints: Numbers::new(alloc),
    };
    let mut stage = Stage::Start;
    for (at, byte) in text.iter().enumerate() {
        match read_byte(&mut line, stage, *byte)? {
            Some(next) => stage = next,
            None => return Err(LratFault::NotLrat { at: at as u64 }),
        }
    }
    if stage != Stage::End {
        return Err(LratFault::NotLrat {
            at: text.len() as u64,
        });
    }
    Ok(line)
}

/// Reads the text of a line, without its line feed.
pub fn read_line(alloc: Global, text: &[u8]) -> Result<Line, LratFault>
    // What is read is spelled so, and what is spelled so is read.
    ensures found { IfOk result (Spells text.now) }
    ensures complete { (line : Line) → Spells text.now line → IsUnlessNoMemory result (Ok line) }
    // `write_line` takes what is read.
    ensures writable { IfOk result IsWritable }
    // A refusal names the first byte with which no line begins so, and there is one at each such text.
    ensures stuck { (at : ℕ) → result ≡ Err (LratFault.NotLrat at) → IsStuckAt text.now at }
    ensures refused { (at : ℕ) → IsStuckAt text.now at → IsUnlessNoMemory result (Err (LratFault.NotLrat at)) }
{
    read(alloc, text)
}
