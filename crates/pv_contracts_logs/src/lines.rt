//! Lines and logs of pv_log.
ghost use Rattle.std.specs.Prelude.{◌≡◌, ℕ, ◌-◌, ◌^◌, ◌<◌, ◌≤◌, [], ◌∷◌, ◌++◌, length, Ok, Err, IfOk, OnOk, OnErr};
ghost use Rattle.std.specs.List.{AllByRecursion};
ghost use Rattle.pv_log.specs.declared.line.Line.{Line};
ghost use Rattle.pv_log.specs.LineText.{Spells, IsWritable, IsStuckAt, IsUnlessNoMemory, line_text};

use pv_log::{Line, Log, LratFault};
use std::alloc::{AllocError, Global};

/// [`pv_log::read_line`].
pub fn read_line(alloc: Global, text: &[u8]) -> Result<Line, LratFault>
    ensures found { IfOk result (Spells text.now) }
    ensures complete { (line : Line) → Spells text.now line → IsUnlessNoMemory result (Ok line) }
    ensures writable { IfOk result IsWritable }
    ensures stuck { (at : ℕ) → result ≡ Err (LratFault.NotLrat at) → IsStuckAt text.now at }
    ensures refused { (at : ℕ) → IsStuckAt text.now at → IsUnlessNoMemory result (Err (LratFault.NotLrat at)) }
{
    pv_log::read_line(alloc, text)
}

/// [`pv_log::write_line`].
pub fn write_line(alloc: Global, line: &Line) -> Result<Vec<u8>, AllocError>
    requires lits { AllByRecursion (λ lit. 2 ≤ lit) line.now.lits }
    requires hints { AllByRecursion (λ hint. 1 ≤ hint) line.now.hints }
    ensures text { IfOk result (λ text. text.items ≡ line_text line.now) }
    ensures spells { IfOk result (λ text. Spells text.items line.now) }
{
    pv_log::write_line(alloc, line)
}

/// [`Log::push`].
pub fn push_line(log: &mut Log, line: Line) -> Result<(), AllocError>
    requires { length log.old < 2 ^ 32 - 1 }
    ensures ok { OnOk result (log.new ≡ log.old ++ line ∷ []) }
    ensures err { OnErr result (log.new ≡ log.old) }
{
    log.push(line)
}
