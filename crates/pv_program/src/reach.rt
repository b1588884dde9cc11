//! The code of the blocks that calls lead to from the one that is entered.
//!
//! The calls of a program are the list of what is still to be made. They are gone along in their order; where a call runs a block that
//! has no code, that is made, which puts its own calls behind the others. So each block is made once, and no order of blocks is needed.
ghost use Rattle.std.specs.Prelude.{◌≡◌, ◌<◌, IfOk, IfErr, OnOk, IfNone, IfSome, is_some, length, None, Some, slice_get, slice_index_or};
ghost use Rattle.pv_tree.specs.Tree.{BlockTree};
ghost use Rattle.pv_names.specs.Tables.{blocks_of};
ghost use Rattle.pv_mean.specs.Sources.{Source};
ghost use Rattle.pv_run.specs.declared.program.Called.{Called};
ghost use Rattle.pv_run.specs.Code.{IsCode};
ghost use Rattle.pv_resolve.specs.Contexts.{IsContext};
ghost use Rattle.pv_program.specs.Growth.{Coded, Extends};
ghost use Rattle.pv_program.specs.declared.fault.ProgramFault.TheVariants.{NoMemory};
ghost use Rattle.pv_program.specs.Led.{IsLed, AreLed};
ghost use Rattle.pv_program.specs.Ready.{IsReached};
ghost use Rattle.pv_program.specs.Reached.{AreCodes, IsMade, AreMade, Adds};

use crate::block::add_code;
use crate::fault::ProgramFault;
use crate::grow::put_code;
use pv_resolve::{Context, context_at};
use pv_run::{Called, Code, Program};
use std::alloc::Global;

/// Whether there is code of the block of this number.
fn has_code(codes: &[Option<Code>], block: usize) -> bool
    ensures { result ≡ is_some (slice_index_or codes.now block None) }
{
    match codes.get(block) {
        Some(code) => code.is_some(),
        None => false,
    }
}

/// The block that a call runs, if it has no code.
fn missing(call: &Called, codes: &[Option<Code>]) -> Option<usize>
    ensures none { IfNone result (IsMade codes.now call.now) }
    ensures some { IfSome result (λ n. slice_index_or codes.now n None ≡ None) }
    ensures runs { IfSome result (λ n. call.now.block ≡ Some n) }
{
    match call.block {
        Some(block) => {
            if has_code(codes, block) {
                None
            } else {
                Some(block)
            }
        }
        None => None,
    }
}

/// The first of the calls from this number on that runs a block without code: its number, and the block's.
fn next_missing(calls: &[Called], from: usize, codes: &[Option<Code>]) -> Option<(usize, usize)>
    ensures none { AreMade codes.now calls.now from
        → IfNone result (AreMade codes.now calls.now (length calls.now)) }
    ensures some { AreMade codes.now calls.now from
        → IfSome result (λ r. AreMade codes.now calls.now r.0) }
    ensures inside { IfSome result (λ r. r.0 < length calls.now) }
    ensures missing { IfSome result (λ r. slice_index_or codes.now r.1 None ≡ None) }
    ensures runs { IfSome result (λ r. (call : Called) × (slice_get calls.now r.0 ≡ Some call)
        × (call.block ≡ Some r.1)) }
{
    for i in from..calls.len() {
        if let Some(block) = missing(&calls[i], codes) {
            return Some((i, block));
        }
    }
    None
}

/// Makes the code of the block of this number.
fn make_code(
    alloc: Global,
    context: &Context,
    program: &mut Program,
    block: usize,
) -> Result<Code, ProgramFault>
    ensures grows { OnOk result (Extends program.old program.new) }
    ensures inside { OnOk result (block < length (blocks_of context.now.scope.tables.now)) }
    ensures is { (source : Source) (b : BlockTree) → IsContext context.now source
        → slice_get source.project.blocks block ≡ Some b
        → IfOk result (IsCode source program.new b) }
    ensures room { (source : Source) → IsContext context.now source → IsReached source
        → IsLed source block → IfErr result (λ e. e ≡ NoMemory) }
    ensures led { (source : Source) → IsContext context.now source → IsReached source
        → IsLed source block → AreLed source program.old.calls.items
        → OnOk result (AreLed source program.new.calls.items) }
{
    match context_at(*context, block) {
        Some(inner) => add_code(alloc, &inner, program),
        None => Err(ProgramFault::TooLarge),
    }
}

/// Makes the code of the block of this number, and puts it among that of all blocks.
fn add_block(
    alloc: Global,
    context: &Context,
    program: &mut Program,
    codes: &mut Vec<Option<Code>>,
    block: usize,
) -> Result<(), ProgramFault>
    requires { length codes.now.items ≡ length (blocks_of context.now.scope.tables.now) }
    ensures grows { OnOk result (Extends program.old program.new) }
    ensures adds { OnOk result (Adds codes.old.items codes.new.items block) }
    ensures are { (source : Source) → IsContext context.now source
        → AreCodes source program.old codes.old.items
        → OnOk result (AreCodes source program.new codes.new.items) }
    ensures room { (source : Source) → IsContext context.now source → IsReached source
        → IsLed source block → IfErr result (λ e. e ≡ NoMemory) }
    ensures led { (source : Source) → IsContext context.now source → IsReached source
        → IsLed source block → AreLed source program.old.calls.items
        → OnOk result (AreLed source program.new.calls.items) }
{
    let code = make_code(alloc, context, program, block)?;
    put_code(codes, block, code);
    Ok(())
}

/// The code of the block that is entered and of those that calls lead to from there, by the numbers of the project's blocks.
pub(crate) fn reached(
    alloc: Global,
    context: &Context,
    program: &mut Program,
) -> Result<Vec<Option<Code>>, ProgramFault>
    ensures grows { OnOk result (Extends program.old program.new) }
    ensures are { (source : Source) → IsContext context.now source
        → IfOk result (λ codes. AreCodes source program.new codes.items) }
    ensures entered { IfOk result (λ codes. Coded codes.items program.old.entry) }
    ensures made { IfOk result (λ codes. AreMade codes.items program.new.calls.items
        (length program.new.calls.items)) }
    ensures room { (source : Source) → IsContext context.now source → IsReached source
        → IsLed source program.old.entry → AreLed source program.old.calls.items
        → IfErr result (λ e. e ≡ NoMemory) }
{
    let entered = program.entry;
    let mut codes = vec![in alloc; None; context.scope.tables.entries().len()]?;
    add_block(alloc, context, program, &mut codes, entered)?;
    let mut next = 0;
    while let Some((call, block)) = next_missing(program.calls.as_slice(), next, codes.as_slice()) {
        add_block(alloc, context, program, &mut codes, block)?;
        next = call;
    }
    Ok(codes)
}
