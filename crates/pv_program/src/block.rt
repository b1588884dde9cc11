//! The code of a block.
ghost use Rattle.std.specs.Prelude.{◌≡◌, ◌<◌, ◌≤◌, IfOk, IfErr, OnOk, IsOk, is_some, length, if◌then◌else◌};
ghost use Rattle.pv_tree.specs.Scopes as scopes;
ghost use Rattle.pv_tree.specs.View.{block_tree, body_tree};
ghost use Rattle.pv_mean.specs.declared.count.TheConstants.{BEYOND as BOUND};
ghost use Rattle.pv_mean.specs.Sources.{Source};
ghost use Rattle.pv_mean.specs.Cells.{stl_types};
ghost use Rattle.pv_mean.specs.Activations.{value_number, brief_count};
ghost use Rattle.pv_run.specs.Code.{IsCode, RunsBody, statements_end};
ghost use Rattle.pv_resolve.specs.Contexts.{IsContext, block_in};
ghost use Rattle.pv_resolve.specs.Rooms.{HasRoom};
ghost use Rattle.pv_program.specs.declared.fault.ProgramFault.TheVariants.{NoMemory};
ghost use Rattle.pv_program.specs.Growth.{Extends};
ghost use Rattle.pv_program.specs.Led.{AreLed, HasAllRoom};
ghost use Rattle.pv_program.specs.Ready.{FitsCode};

use crate::fault::ProgramFault;
use crate::grow::widen;
use crate::instr::add_instrs;
use crate::stmt::make_list;
use pv_mean::BEYOND;
use pv_names::is_stl;
use pv_resolve::{Context, ResolveFault};
use pv_run::{Body as CodeBody, Code, List, Program};
use pv_tree::{Block, Body};
use pv_word::Ty;
use std::alloc::Global;

/// How many brief cells an STL block works with: two accumulators and six bits.
const STL_CELLS: u32 = 8;

/// The number of a function's value among the brief cells of the block: it lies behind the variables.
pub(crate) fn value_number(context: &Context) -> Result<u32, ResolveFault>
    ensures is { (source : Source) → IsContext context.now source
        → IfOk result (λ n. n ≡ value_number source (block_in context.now)) }
    ensures few { IfOk result (λ n. n < BOUND) }
    ensures room { (source : Source) → IsContext context.now source
        → HasRoom source (block_in context.now) → IsOk result }
{
    let n = context.sizes.of_activation(context.scope.entry.block());
    if n >= BEYOND {
        return Err(ResolveFault::TooLarge);
    }
    Ok(n)
}

/// How many brief cells a value has.
fn value_cells(value: Option<Ty>) -> u32
    ensures { result ≡ (if is_some value then 1 else 0) }
{
    if value.is_some() { 1 } else { 0 }
}

/// How many brief cells an STL block works with; a block of SCL has none such.
fn stl_cells(body: &Body) -> u32
    ensures { result ≡ (if scopes.is_stl (body_tree body.now) then length stl_types else 0) }
{
    if is_stl(body) { STL_CELLS } else { 0 }
}

/// How many brief cells a block has, where its value has this number.
fn brief_count(block: &Block, value: u32) -> u32
    requires { value < BOUND }
    ensures { (source : Source) → value ≡ value_number source (block_tree block.now)
        → result ≡ brief_count source (block_tree block.now) }
{
    let cells = value_cells(block.interface.value);
    let registers = stl_cells(&block.body);
    value + cells + registers
}

/// Puts the statements or instructions of a body behind those of the program.
fn add_body(
    alloc: Global,
    context: &Context,
    program: &mut Program,
    body: &Body,
) -> Result<CodeBody, ProgramFault>
    ensures grows { OnOk result (Extends program.old program.new) }
    ensures runs { (source : Source) → IsContext context.now source
        → IfOk result (λ b. RunsBody source (block_in context.now) program.new b
        (body_tree body.now)) }
    ensures within { (source : Source) → IsContext context.now source
        → IfOk result (λ b. statements_end b ≤ length program.new.stmts.items) }
    ensures room { (source : Source) → IsContext context.now source
        → HasAllRoom source (block_in context.now)
        → FitsCode source (block_in context.now) (body_tree body.now)
        → IfErr result (λ e. e ≡ NoMemory) }
    ensures led { (source : Source) → IsContext context.now source
        → FitsCode source (block_in context.now) (body_tree body.now)
        → AreLed source program.old.calls.items
        → OnOk result (AreLed source program.new.calls.items) }
{
    match body {
        Body::Scl(list) => {
            let made = make_list(alloc, context, program, list.as_slice())?;
            Ok(CodeBody::Statements(made))
        }
        Body::Stl(list) => {
            let made = add_instrs(alloc, context, program, list.as_slice())?;
            Ok(CodeBody::Instructions(made))
        }
        Body::Starts(_) => Ok(CodeBody::Statements(List { first: 0, end: 0 })),
    }
}

/// Makes the code of a block.
pub(crate) fn add_code(
    alloc: Global,
    context: &Context,
    program: &mut Program,
) -> Result<Code, ProgramFault>
    ensures grows { OnOk result (Extends program.old program.new) }
    ensures is { (source : Source) → IsContext context.now source
        → IfOk result (λ c. IsCode source program.new (block_in context.now) c) }
    ensures room { (source : Source) → IsContext context.now source
        → HasAllRoom source (block_in context.now)
        → FitsCode source (block_in context.now) (block_in context.now).body
        → IfErr result (λ e. e ≡ NoMemory) }
    ensures led { (source : Source) → IsContext context.now source
        → FitsCode source (block_in context.now) (block_in context.now).body
        → AreLed source program.old.calls.items
        → OnOk result (AreLed source program.new.calls.items) }
{
    let block = context.scope.entry.block();
    let value = value_number(context)?;
    let body = add_body(alloc, context, program, &block.body)?;
    let brief = brief_count(block, value);
    widen(program, brief);
    Ok(Code { body, brief, value })
}
