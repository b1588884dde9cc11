//! The calls of a block, in the order of its text.
ghost use Rattle.std.specs.Prelude.{◌≡◌, ◌++◌, ◌∷◌, [], flat_map, map, IfOk, OnOk};
ghost use Rattle.pv_tree.specs.View.{call_tree, stmt_tree, instr_tree, body_tree, block_tree};
ghost use Rattle.pv_tree.specs.Parts.{site, calls_of_stmt, calls_of_instruction, instructions_of, calls_of};
ghost use Rattle.pv_names.specs.Callees.{how_tree};
ghost use Rattle.pv_cells.specs.Calls.{made_tree};

use crate::made::Made;
use pv_bytes::statements_of;
use pv_names::{How, how_of};
use pv_tree::{Block, Body, CallTree, Instr, Stmt};
use std::alloc::{AllocError, Global};

/// Puts a call behind others.
fn push_call<'p>(calls: &mut Vec<Made<'p>>, how: How, call: &'p CallTree) -> Result<(), AllocError>
    ensures { OnOk result (map made_tree calls.new.items
        ≡ map made_tree calls.old.items ++ site (how_tree how) (call_tree call.now) ∷ []) }
{
    let made = Made { how, call };
    calls.push(made)?;
    Ok(())
}

/// Puts the call of a statement itself behind others, if it has one.
fn push_stmt<'p>(calls: &mut Vec<Made<'p>>, stmt: &'p Stmt) -> Result<(), AllocError>
    ensures { OnOk result (map made_tree calls.new.items
        ≡ map made_tree calls.old.items ++ calls_of_stmt (stmt_tree stmt.now)) }
{
    match stmt {
        Stmt::AssignCall { call, .. } => push_call(calls, How::Value, call),
        Stmt::Call(call) => push_call(calls, How::Statement, call),
        Stmt::Assign { .. } => Ok(()),
        Stmt::If { .. } => Ok(()),
        Stmt::Case { .. } => Ok(()),
        Stmt::For { .. } => Ok(()),
        Stmt::While { .. } => Ok(()),
        Stmt::Repeat { .. } => Ok(()),
        Stmt::Exit(_) => Ok(()),
        Stmt::Continue(_) => Ok(()),
        Stmt::Return(_) => Ok(()),
        Stmt::Empty(_) => Ok(()),
    }
}

/// Puts the calls of statements behind others, without those of the statements in them.
fn push_stmts<'p>(calls: &mut Vec<Made<'p>>, stmts: &[&'p Stmt]) -> Result<(), AllocError>
    ensures { OnOk result (map made_tree calls.new.items ≡ map made_tree calls.old.items
        ++ flat_map (λ s. calls_of_stmt (stmt_tree s.now)) stmts.now) }
{
    for &stmt in stmts {
        push_stmt(calls, stmt)?;
    }
    Ok(())
}

/// Puts the call of an instruction behind others, if it has one.
fn push_instr<'p>(calls: &mut Vec<Made<'p>>, instr: &'p Instr) -> Result<(), AllocError>
    ensures { OnOk result (map made_tree calls.new.items
        ≡ map made_tree calls.old.items ++ calls_of_instruction (instr_tree instr.now)) }
{
    match instr.call() {
        Some(call) => push_call(calls, how_of(instr.op), call),
        None => Ok(()),
    }
}

/// Puts the calls of instructions behind others.
fn push_instrs<'p>(calls: &mut Vec<Made<'p>>, instrs: &'p [Instr]) -> Result<(), AllocError>
    ensures { OnOk result (map made_tree calls.new.items ≡ map made_tree calls.old.items
        ++ flat_map (λ i. calls_of_instruction (instr_tree i)) instrs.now) }
{
    for instr in instrs {
        push_instr(calls, instr)?;
    }
    Ok(())
}

/// Puts the calls of the instructions of a body behind others.
fn push_body<'p>(calls: &mut Vec<Made<'p>>, body: &'p Body) -> Result<(), AllocError>
    ensures { OnOk result (map made_tree calls.new.items ≡ map made_tree calls.old.items
        ++ flat_map calls_of_instruction (instructions_of (body_tree body.now))) }
{
    match body {
        Body::Stl(instrs) => push_instrs(calls, instrs.as_slice()),
        Body::Scl(_) => Ok(()),
        Body::Starts(_) => Ok(()),
    }
}

/// The calls of a block.
pub(crate) fn calls_of_block<'p>(
    alloc: Global,
    block: &'p Block,
) -> Result<Vec<Made<'p>>, AllocError>
    ensures { IfOk result (λ v. map made_tree v.items ≡ calls_of (block_tree block.now)) }
{
    let mut calls = Vec::new(alloc);
    let stmts = statements_of(alloc, &block.body)?;
    push_stmts(&mut calls, stmts.as_slice())?;
    push_body(&mut calls, &block.body)?;
    Ok(calls)
}
