//! Instructions of a body of STL, put behind those of the program.
//!
//! What breaks these rules of instructions has no code: a label that is doubled, more than seven open nestings, a jump within one, and a
//! word without what belongs to it. What breaks others has some: a jump to a label that isn't there, a nesting that is closed and wasn't
//! opened, an operand of another type.
ghost use Rattle.std.specs.Prelude.{◌≡◌, ◌+◌, ◌<◌, ◌^◌, List, IfErr, IfOk, IsOk, OnOk, Some, length, map, slice_get};
ghost use Rattle.pv_tree.specs.Tree.{InstrTree};
ghost use Rattle.pv_tree.specs.View.{instr_tree};
ghost use Rattle.pv_mean.specs.Sources.{Source};
ghost use Rattle.pv_stl_run.specs.Code.{MayOpen, MayDo, opened, opened_by};
ghost use Rattle.pv_stl_run.specs.Going.{nested_behind, ranges_in};
ghost use Rattle.pv_run.specs.Code.{HasInstrs};
ghost use Rattle.pv_resolve.specs.Contexts.{IsContext, block_in};
ghost use Rattle.pv_resolve.specs.declared.fault.ResolveFault.TheVariants.{NoMemory};
ghost use Rattle.pv_program.specs.Growth.{Extends};
ghost use Rattle.pv_program.specs.Led.{AreLed, HasAllRoom};
ghost use Rattle.pv_program.specs.Ready.{AreReady, IsOpenAt};
ghost use Rattle.pv_program.specs.Labels.{FindsLabels, FindsJumps};
ghost use Rattle.pv_program.specs.Bodies.{Outside, AreMadeInstrs};

use crate::action::action_of;
use crate::grow::{append_instrs, make_ranges};
use crate::label::{Labels, labels_of, range_at};
use pv_resolve::{Context, ResolveFault};
use pv_run::{Program, Span};
use pv_stl_run::{Action, Change, Instr as Code};
use pv_tree::Instr;
use std::alloc::Global;

/// How many nestings are open behind a change, where so many were before it.
fn nested_by(change: Change, depth: u32) -> Result<u32, ResolveFault>
    ensures opened { IfOk result (λ n. n ≡ opened_by change depth) }
    ensures may { OnOk result (MayOpen change depth) }
    ensures fits { MayOpen change depth → IsOk result }
{
    match change {
        Change::Open(_) => {
            if depth < 7 {
                Ok(depth + 1)
            } else {
                Err(ResolveFault::TooLarge)
            }
        }
        Change::Close => Ok(depth.saturating_sub(1)),
        Change::Nothing => Ok(depth),
        Change::KeepOr => Ok(depth),
        Change::Negate => Ok(depth),
        Change::Put(_) => Ok(depth),
        Change::Load(_) => Ok(depth),
        Change::Calculate(_) => Ok(depth),
        Change::Compare(..) => Ok(depth),
        Change::Combine(..) => Ok(depth),
        Change::Shift(..) => Ok(depth),
        Change::Extend => Ok(depth),
        Change::Swap => Ok(depth),
        Change::Push => Ok(depth),
        Change::Pop => Ok(depth),
    }
}

/// How many nestings are open behind an instruction, where so many were before it. A jump has to stand in none.
fn nested(action: Action, depth: u32) -> Result<u32, ResolveFault>
    ensures opened { IfOk result (λ n. n ≡ opened action depth) }
    ensures may { OnOk result (MayDo action depth) }
    ensures outside { OnOk result (Outside action depth) }
    ensures fits { MayDo action depth → Outside action depth → IsOk result }
{
    match action {
        Action::Change(change) => nested_by(change, depth),
        Action::Jump(..) => {
            if depth == 0 {
                Ok(depth)
            } else {
                Err(ResolveFault::TooLarge)
            }
        }
        Action::Join(..) => Ok(depth),
        Action::Write(..) => Ok(depth),
        Action::Edge(..) => Ok(depth),
        Action::Load(..) => Ok(depth),
        Action::Transfer(..) => Ok(depth),
        Action::End => Ok(depth),
        Action::EndWhere => Ok(depth),
        Action::Call(_) => Ok(depth),
    }
}

/// Makes the instruction of a number, where so many nestings are open, and gives how many are open behind it.
fn add_instr(
    alloc: Global,
    context: &Context,
    program: &mut Program,
    labels: &Labels,
    made: &mut Vec<Code>,
    k: usize,
    depth: u32,
    instr: &Instr,
) -> Result<u32, ResolveFault>
    ensures grows { OnOk result (Extends program.old program.new) }
    ensures more { OnOk result (length made.new.items ≡ length made.old.items + 1) }
    ensures nested { depth ≡ nested_behind made.old.items 0
        → IfOk result (λ n. n ≡ nested_behind made.new.items 0) }
    ensures are { (source : Source) (all : List InstrTree) → IsContext context.now source
        → FindsLabels labels.now.at all → FindsJumps labels.now.last all 0 → length all < 2 ^ 64
        → slice_get all k ≡ Some (instr_tree instr.now) → k ≡ length made.old.items
        → depth ≡ nested_behind made.old.items 0
        → AreMadeInstrs source (block_in context.now) program.old all made.old.items
        → OnOk result (AreMadeInstrs source (block_in context.now) program.new all made.new.items) }
    ensures depth { (source : Source) (all : List InstrTree)
        → AreReady source (block_in context.now) all
        → slice_get all k ≡ Some (instr_tree instr.now) → IsOpenAt all k depth
        → IfOk result (IsOpenAt all (k + 1)) }
    ensures room { (source : Source) (all : List InstrTree) → IsContext context.now source
        → HasAllRoom source (block_in context.now) → AreReady source (block_in context.now) all
        → slice_get all k ≡ Some (instr_tree instr.now) → IsOpenAt all k depth
        → IfErr result (λ e. e ≡ NoMemory) }
    ensures led { (source : Source) (all : List InstrTree) → IsContext context.now source
        → AreReady source (block_in context.now) all
        → slice_get all k ≡ Some (instr_tree instr.now) → AreLed source program.old.calls.items
        → OnOk result (AreLed source program.new.calls.items) }
{
    let action = action_of(alloc, context, program, labels, k, instr)?;
    let behind = nested(action, depth)?;
    let range = range_at(labels, k, instr);
    made.push(Code {
        action,
        place: instr.place,
        range,
    })?;
    Ok(behind)
}

/// How many ranges begin among instructions.
fn count_ranges(made: &[Code]) -> usize
    ensures { result ≡ ranges_in made.now }
{
    let mut count = 0;
    for code in made {
        if code.range.is_some() {
            count += 1;
        }
    }
    count
}

/// Puts the instructions of a body behind those of the program.
pub(crate) fn add_instrs(
    alloc: Global,
    context: &Context,
    program: &mut Program,
    instrs: &[Instr],
) -> Result<Span, ResolveFault>
    ensures grows { OnOk result (Extends program.old program.new) }
    ensures has { (source : Source) → IsContext context.now source
        → IfOk result (λ s. HasInstrs source (block_in context.now) program.new s
        (map instr_tree instrs.now)) }
    ensures room { (source : Source) → IsContext context.now source
        → HasAllRoom source (block_in context.now)
        → AreReady source (block_in context.now) (map instr_tree instrs.now)
        → IfErr result (λ e. e ≡ NoMemory) }
    ensures led { (source : Source) → IsContext context.now source
        → AreReady source (block_in context.now) (map instr_tree instrs.now)
        → AreLed source program.old.calls.items
        → OnOk result (AreLed source program.new.calls.items) }
{
    let labels = labels_of(alloc, instrs)?;
    let mut made = Vec::new(alloc);
    let mut depth = 0;
    for (k, instr) in instrs.iter().enumerate() {
        depth = add_instr(alloc, context, program, &labels, &mut made, k, depth, instr)?;
    }
    let list = made.as_slice();
    make_ranges(program, count_ranges(list));
    let span = append_instrs(program, list)?;
    Ok(span)
}
