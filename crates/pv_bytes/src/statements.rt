//! The statements of a body in the order of the text, each before those in it.
ghost use Rattle.std.specs.Prelude.{◌≡◌, ◌++◌, ◌∷◌, [], OnOk, IfOk, map};
ghost use Rattle.pv_tree.specs.View.{stmt_tree, stmt_trees, body_tree};
ghost use Rattle.pv_tree.specs.Parts.{spots_of_body, spots_of_stmts};
ghost use Rattle.pv_bytes.specs.Statements.{stmts_of_spots, within, listed};

use pv_tree::{Body, Stmt};
use std::alloc::{AllocError, Global};

/// Puts a statement behind others, without those in it.
fn push_one<'p>(list: &mut Vec<&'p Stmt>, stmt: &'p Stmt) -> Result<(), AllocError>
    ensures { OnOk result (map (λ s. stmt_tree s.now) list.new.items
        ≡ map (λ s. stmt_tree s.now) list.old.items ++ stmt_tree stmt.now ∷ []) }
{
    list.push(stmt)?;
    Ok(())
}

/// Puts all statements in a statement behind others.
#[cycle(listing)]
fn push_within<'p>(list: &mut Vec<&'p Stmt>, stmt: &'p Stmt) -> Result<(), AllocError>
    ensures { OnOk result (map (λ s. stmt_tree s.now) list.new.items
        ≡ within (map (λ s. stmt_tree s.now) list.old.items) (stmt_tree stmt.now)) }
{
    match stmt {
        Stmt::If { arms, other, .. } => {
            for arm in arms {
                push_statements(list, arm.1.as_slice())?;
            }
            match other {
                Some(body) => push_statements(list, body.as_slice()),
                None => Ok(()),
            }
        }
        Stmt::Case {
            branches,
            other,
            ..
        } => {
            for branch in branches {
                push_statements(list, branch.1.as_slice())?;
            }
            match other {
                Some(body) => push_statements(list, body.as_slice()),
                None => Ok(()),
            }
        }
        Stmt::For { body, .. } => push_statements(list, body.as_slice()),
        Stmt::While { body, .. } => push_statements(list, body.as_slice()),
        Stmt::Repeat { body, .. } => push_statements(list, body.as_slice()),
        Stmt::Assign { .. } => Ok(()),
        Stmt::AssignCall { .. } => Ok(()),
        Stmt::Exit(_) => Ok(()),
        Stmt::Continue(_) => Ok(()),
        Stmt::Return(_) => Ok(()),
        Stmt::Call(_) => Ok(()),
        Stmt::Empty(_) => Ok(()),
    }
}

/// Puts statements behind others, each with all in it.
#[cycle(listing)]
fn push_statements<'p>(list: &mut Vec<&'p Stmt>, stmts: &'p [Stmt]) -> Result<(), AllocError>
    ensures { OnOk result (map (λ s. stmt_tree s.now) list.new.items
        ≡ listed (map (λ s. stmt_tree s.now) list.old.items) (stmt_trees stmts.now)) }
{
    for stmt in stmts {
        push_one(list, stmt)?;
        push_within(list, stmt)?;
    }
    Ok(())
}

/// Statements with all in them, each before those in it.
fn all_of<'p>(alloc: Global, stmts: &'p [Stmt]) -> Result<Vec<&'p Stmt>, AllocError>
    ensures { IfOk result (λ list. map (λ s. stmt_tree s.now) list.items
        ≡ stmts_of_spots (spots_of_stmts [] (stmt_trees stmts.now))) }
{
    let mut list = Vec::new(alloc);
    push_statements(&mut list, stmts)?;
    Ok(list)
}

/// The statements of a body in the order of the text, each before those in it; a body of STL or of start values has none.
pub fn statements_of<'p>(alloc: Global, body: &'p Body) -> Result<Vec<&'p Stmt>, AllocError>
    ensures { IfOk result (λ list. map (λ s. stmt_tree s.now) list.items
        ≡ stmts_of_spots (spots_of_body (body_tree body.now))) }
{
    match body {
        Body::Scl(stmts) => all_of(alloc, stmts.as_slice()),
        Body::Stl(_) => Ok(Vec::new(alloc)),
        Body::Starts(_) => Ok(Vec::new(alloc)),
    }
}
