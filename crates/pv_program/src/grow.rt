//! Programs that grow.
ghost use Rattle.std.specs.Prelude.{◌≡◌, ◌++◌, ◌∷◌, [], ◌<◌, ◌≤◌, ℕ, length, slice_get, slice_set, Some, IfOk, IfErr, OnOk};
ghost use Rattle.std.specs.List.{between};
ghost use Rattle.pv_resolve.specs.declared.fault.ResolveFault.TheVariants.{NoMemory};
ghost use Rattle.pv_program.specs.Growth.{Coded, HasCode, Extends, Stands};

use pv_eval::{Expression, Target};
use pv_resolve::ResolveFault;
use pv_run::{Arm, Body, Branch, Called, Choice, Code, Inward, List, Outward, Program, Span, Stmt};
use pv_stl_run::Instr;
use std::alloc::AllocError;

/// Puts more behind what is there, and gives the numbers of the first of it and of what would stand behind it.
fn append<T: Copy>(all: &mut Vec<T>, more: &[T]) -> Result<Span, AllocError>
    ensures items { OnOk result (all.new.items ≡ all.old.items ++ more.now) }
    ensures stands { IfOk result (λ s. Stands all.new.items s.first s.end more.now) }
    ensures first { IfOk result (λ s. s.first ≡ length all.old.items) }
    ensures end { IfOk result (λ s. s.end ≡ length all.new.items) }
{
    let first = all.len();
    all.extend_from_slice(more)?;
    Ok(Span {
        first,
        end: all.len(),
    })
}

/// Puts statements behind those of the program.
pub(crate) fn append_stmts(program: &mut Program, more: &[Stmt]) -> Result<List, ResolveFault>
    ensures grows { OnOk result (Extends program.old program.new) }
    ensures stands { IfOk result (λ l. Stands program.new.stmts.items l.first l.end more.now) }
    ensures first { IfOk result (λ l. l.first ≡ length program.old.stmts.items) }
    ensures end { IfOk result (λ l. l.end ≡ length program.new.stmts.items) }
    ensures memory { IfErr result (λ e. e ≡ NoMemory) }
    ensures calls { OnOk result (program.new.calls ≡ program.old.calls) }
{
    let span = append(&mut program.stmts, more)?;
    Ok(List {
        first: span.first,
        end: span.end,
    })
}

pub(crate) fn append_arms(program: &mut Program, more: &[Arm]) -> Result<Span, ResolveFault>
    ensures grows { OnOk result (Extends program.old program.new) }
    ensures stands { IfOk result (λ s. Stands program.new.arms.items s.first s.end more.now) }
    ensures memory { IfErr result (λ e. e ≡ NoMemory) }
    ensures calls { OnOk result (program.new.calls ≡ program.old.calls) }
{
    let span = append(&mut program.arms, more)?;
    Ok(span)
}

pub(crate) fn append_branches(program: &mut Program, more: &[Branch]) -> Result<Span, ResolveFault>
    ensures grows { OnOk result (Extends program.old program.new) }
    ensures stands { IfOk result (λ s. Stands program.new.branches.items s.first s.end more.now) }
    ensures memory { IfErr result (λ e. e ≡ NoMemory) }
    ensures calls { OnOk result (program.new.calls ≡ program.old.calls) }
{
    let span = append(&mut program.branches, more)?;
    Ok(span)
}

pub(crate) fn append_choices(program: &mut Program, more: &[Choice]) -> Result<Span, ResolveFault>
    ensures grows { OnOk result (Extends program.old program.new) }
    ensures stands { IfOk result (λ s. Stands program.new.choices.items s.first s.end more.now) }
    ensures memory { IfErr result (λ e. e ≡ NoMemory) }
    ensures calls { OnOk result (program.new.calls ≡ program.old.calls) }
{
    let span = append(&mut program.choices, more)?;
    Ok(span)
}

pub(crate) fn append_inward(program: &mut Program, more: &[Inward]) -> Result<Span, ResolveFault>
    ensures grows { OnOk result (Extends program.old program.new) }
    ensures stands { IfOk result (λ s. Stands program.new.inward.items s.first s.end more.now) }
    ensures memory { IfErr result (λ e. e ≡ NoMemory) }
    ensures calls { OnOk result (program.new.calls ≡ program.old.calls) }
{
    let span = append(&mut program.inward, more)?;
    Ok(span)
}

pub(crate) fn append_outward(program: &mut Program, more: &[Outward]) -> Result<Span, ResolveFault>
    ensures grows { OnOk result (Extends program.old program.new) }
    ensures stands { IfOk result (λ s. Stands program.new.outward.items s.first s.end more.now) }
    ensures memory { IfErr result (λ e. e ≡ NoMemory) }
    ensures calls { OnOk result (program.new.calls ≡ program.old.calls) }
{
    let span = append(&mut program.outward, more)?;
    Ok(span)
}

/// Puts instructions behind those of the program.
pub(crate) fn append_instrs(program: &mut Program, more: &[Instr]) -> Result<Span, ResolveFault>
    ensures grows { OnOk result (Extends program.old program.new) }
    ensures ordered { IfOk result (λ s. s.first ≤ s.end) }
    ensures within { IfOk result (λ s. s.end ≤ length program.new.instrs.items) }
    ensures are { IfOk result (λ s. between s.first s.end program.new.instrs.items ≡ more.now) }
    ensures memory { IfErr result (λ e. e ≡ NoMemory) }
    ensures calls { OnOk result (program.new.calls ≡ program.old.calls) }
{
    let span = append(&mut program.instrs, more)?;
    Ok(span)
}

/// Bodies have room for so many ranges that begin in them.
pub(crate) fn make_ranges(program: &mut Program, ranges: usize)
    ensures grows { Extends program.old program.new }
    ensures room { ranges ≤ program.new.ranges }
    ensures calls { program.new.calls ≡ program.old.calls }
{
    program.ranges = program.ranges.max(ranges);
}

/// Puts a call behind those of the program, and gives its number.
pub(crate) fn push_call(program: &mut Program, call: Called) -> Result<usize, ResolveFault>
    ensures grows { OnOk result (Extends program.old program.new) }
    ensures at { IfOk result (λ n. slice_get program.new.calls.items n ≡ Some call) }
    ensures pushed { OnOk result (program.new.calls.items ≡ program.old.calls.items ++ call ∷ []) }
    ensures memory { IfErr result (λ e. e ≡ NoMemory) }
{
    let n = program.calls.len();
    program.calls.push(call)?;
    Ok(n)
}

/// What stands for the code of a block while a program is made.
const NOT_MADE: Code = Code {
    body: Body::Statements(List { first: 0, end: 0 }),
    brief: 0,
    value: 0,
};

/// The code of a block is this.
pub(crate) fn put_code(codes: &mut Vec<Option<Code>>, block: usize, code: Code)
    requires { block < length codes.now.items }
    ensures { codes.new.items ≡ slice_set codes.old.items block (Some code) }
{
    codes[block] = Some(code);
}

/// The block of this number counts as one with code.
fn count_code(codes: &mut Vec<Option<Code>>, block: usize) -> Result<(), AllocError>
    ensures coded { OnOk result (Coded codes.new.items block) }
    ensures kept { OnOk result ((n : ℕ) → Coded codes.old.items n → Coded codes.new.items n) }
{
    while codes.len() <= block {
        codes.push(Some(NOT_MADE))?;
    }
    put_code(codes, block, NOT_MADE);
    Ok(())
}

/// While a program is made, each block that a call runs counts as one with code.
pub(crate) fn see_code(program: &mut Program, block: usize) -> Result<(), ResolveFault>
    ensures grows { OnOk result (Extends program.old program.new) }
    ensures calls { OnOk result (program.new.calls ≡ program.old.calls) }
    ensures coded { OnOk result (HasCode program.new block) }
    ensures memory { IfErr result (λ e. e ≡ NoMemory) }
{
    count_code(&mut program.blocks, block)?;
    Ok(())
}

/// Values are made with room for so many of their parts.
fn make_room(program: &mut Program, count: usize)
    ensures grows { Extends program.old program.new }
    ensures room { count ≤ program.new.scratch }
    ensures values { program.new.values ≡ program.old.values }
    ensures targets { program.new.targets ≡ program.old.targets }
    ensures calls { program.new.calls ≡ program.old.calls }
{
    program.scratch = program.scratch.max(count);
}

/// Puts an expression behind the values of the program, and gives its number.
pub(crate) fn push_value(program: &mut Program, value: Expression) -> Result<usize, ResolveFault>
    ensures grows { OnOk result (Extends program.old program.new) }
    ensures at { IfOk result (λ n. slice_get program.new.values.items n ≡ Some value) }
    ensures fits { OnOk result (value.count ≤ program.new.scratch) }
    ensures memory { IfErr result (λ e. e ≡ NoMemory) }
    ensures calls { OnOk result (program.new.calls ≡ program.old.calls) }
{
    make_room(program, value.len());
    let n = program.values.len();
    program.values.push(value)?;
    Ok(n)
}

/// Puts a target behind those of the program, and gives its number.
pub(crate) fn push_target(program: &mut Program, target: Target) -> Result<usize, ResolveFault>
    ensures grows { OnOk result (Extends program.old program.new) }
    ensures at { IfOk result (λ n. slice_get program.new.targets.items n ≡ Some target) }
    ensures fits { OnOk result (target.count ≤ program.new.scratch) }
    ensures memory { IfErr result (λ e. e ≡ NoMemory) }
    ensures calls { OnOk result (program.new.calls ≡ program.old.calls) }
{
    make_room(program, target.len());
    let n = program.targets.len();
    program.targets.push(target)?;
    Ok(n)
}

/// Blocks have room for so many brief cells.
pub(crate) fn widen(program: &mut Program, brief: u32)
    ensures grows { Extends program.old program.new }
    ensures room { brief ≤ program.new.widest }
    ensures calls { program.new.calls ≡ program.old.calls }
{
    program.widest = program.widest.max(brief as usize);
}
