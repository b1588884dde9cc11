//! The links of a block, gathered along its statements or instructions.
//!
//! Statements are gone through as deep as they nest.
ghost use Rattle.std.specs.Prelude.{◌≡◌, [], IfOk, map};
ghost use Rattle.pv_tree.specs.Parts.{calls_of, calls_of_instruction, spots_of, spots_of_stmts};
ghost use Rattle.pv_tree.specs.View.{block_tree, instr_tree, stmt_tree, stmt_trees};
ghost use Rattle.pv_names.specs.InScope.{scope_of};
ghost use Rattle.pv_names.specs.Tables.{project_of};
ghost use Rattle.pv_rules_call.specs.Links.{link_tree, links_of_sites, links_tree, AreLinks};
ghost use Rattle.pv_rules_call.specs.Gathered.{calls_of_all, with_sites, with_spots};

use crate::links::{Link, Links, with_call};
use pv_names::{How, Scope, Tables, how_of};
use pv_tree::{Body, Instr, Stmt};
use std::alloc::{AllocError, Global};

/// The links with those of a statement and of all in it.
#[cycle(gathering)]
fn with_links(scope: &Scope, links: Vec<Link>, stmt: &Stmt) -> Result<Vec<Link>, AllocError>
    ensures { IfOk result (λ new. map link_tree new.items ≡ with_spots (scope_of scope.now)
        (map link_tree links.items) (spots_of [] (stmt_tree stmt.now))) }
{
    match stmt {
        Stmt::AssignCall { call, .. } => with_call(scope, links, How::Value, call),
        Stmt::Call(call) => with_call(scope, links, How::Statement, call),
        Stmt::If { arms, other, .. } => {
            let mut all = links;
            for arm in arms {
                all = with_all_links(scope, all, arm.1.as_slice())?;
            }
            match other {
                Some(list) => with_all_links(scope, all, list.as_slice()),
                None => Ok(all),
            }
        }
        Stmt::Case {
            branches,
            other,
            ..
        } => {
            let mut all = links;
            for branch in branches {
                all = with_all_links(scope, all, branch.1.as_slice())?;
            }
            match other {
                Some(list) => with_all_links(scope, all, list.as_slice()),
                None => Ok(all),
            }
        }
        Stmt::For { body, .. } => with_all_links(scope, links, body.as_slice()),
        Stmt::While { body, .. } => with_all_links(scope, links, body.as_slice()),
        Stmt::Repeat { body, .. } => with_all_links(scope, links, body.as_slice()),
        Stmt::Assign { .. } => Ok(links),
        Stmt::Exit(_) => Ok(links),
        Stmt::Continue(_) => Ok(links),
        Stmt::Return(_) => Ok(links),
        Stmt::Empty(_) => Ok(links),
    }
}

/// The links with those of statements and of all in them.
#[cycle(gathering)]
fn with_all_links(scope: &Scope, links: Vec<Link>, list: &[Stmt]) -> Result<Vec<Link>, AllocError>
    ensures { IfOk result (λ new. map link_tree new.items ≡ with_spots (scope_of scope.now)
        (map link_tree links.items) (spots_of_stmts [] (stmt_trees list.now))) }
{
    let mut all = links;
    for stmt in list {
        all = with_links(scope, all, stmt)?;
    }
    Ok(all)
}

/// The links with that of an instruction.
fn with_instr(scope: &Scope, links: Vec<Link>, instr: &Instr) -> Result<Vec<Link>, AllocError>
    ensures { IfOk result (λ new. map link_tree new.items ≡ with_sites (scope_of scope.now)
        (map link_tree links.items) (calls_of_instruction (instr_tree instr.now))) }
{
    match instr.call() {
        Some(call) => with_call(scope, links, how_of(instr.op), call),
        None => Ok(links),
    }
}

/// The links with those of instructions.
fn with_instrs(scope: &Scope, links: Vec<Link>, list: &[Instr]) -> Result<Vec<Link>, AllocError>
    ensures { IfOk result (λ new. map link_tree new.items ≡ with_sites (scope_of scope.now)
        (map link_tree links.items) (calls_of_all (map instr_tree list.now))) }
{
    let mut all = links;
    for instr in list {
        all = with_instr(scope, all, instr)?;
    }
    Ok(all)
}

/// The links of a block.
fn links_in_block(scope: &Scope, alloc: Global) -> Result<Vec<Link>, AllocError>
    ensures { let here = scope_of scope.now in
        IfOk result (λ v. map link_tree v.items ≡ links_of_sites here (calls_of here.block)) }
{
    match &scope.entry.block.body {
        Body::Scl(list) => with_all_links(scope, Vec::new(alloc), list.as_slice()),
        Body::Stl(list) => with_instrs(scope, Vec::new(alloc), list.as_slice()),
        Body::Starts(_) => Ok(Vec::new(alloc)),
    }
}

/// The links of all blocks, in their order.
pub(crate) fn links_of_all<'p>(
    alloc: Global,
    tables: &'p Tables<'p>,
) -> Result<Vec<Links>, AllocError>
    ensures { IfOk result (λ v. AreLinks (project_of tables.now) v.items) }
{
    let mut all = Vec::new(alloc);
    for entry in tables.entries() {
        let scope = Scope { tables, entry };
        let list = links_in_block(&scope, alloc)?;
        all.push(Links { list })?;
    }
    Ok(all)
}
