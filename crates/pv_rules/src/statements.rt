//! All statements of a list, those within others too, in their order.
//!
//! They are gathered once, as deep as they nest, so that whoever looks at single statements needn't know where they stand.
ghost use Rattle.std.specs.Prelude.{◌≡◌, ◌∷◌, [], ◌++◌, IfOk, OnOk, map};
ghost use Rattle.pv_tree.specs.View.{stmt_tree, stmt_trees};
ghost use Rattle.pv_rules.specs.Statements.{all_in, all_of};

use pv_tree::Stmt;
use std::alloc::{AllocError, Global};

/// Adds a statement alone.
fn add_one<'p>(stmt: &'p Stmt, all: &mut Vec<&'p Stmt>) -> Result<(), AllocError>
    ensures { OnOk result (map (λ s. stmt_tree s.now) all.new.items
        ≡ map (λ s. stmt_tree s.now) all.old.items ++ stmt_tree stmt.now ∷ []) }
{
    all.push(stmt)?;
    Ok(())
}

/// Adds a statement and all in it.
#[cycle(gathering)]
fn add_statement<'p>(stmt: &'p Stmt, all: &mut Vec<&'p Stmt>) -> Result<(), AllocError>
    ensures { OnOk result (map (λ s. stmt_tree s.now) all.new.items
        ≡ map (λ s. stmt_tree s.now) all.old.items ++ all_in (stmt_tree stmt.now)) }
{
    add_one(stmt, all)?;
    match stmt {
        Stmt::If { arms, other, .. } => {
            for arm in arms {
                add_statements(arm.1.as_slice(), all)?;
            }
            match other {
                Some(list) => add_statements(list.as_slice(), all),
                None => Ok(()),
            }
        }
        Stmt::Case {
            branches,
            other,
            ..
        } => {
            for branch in branches {
                add_statements(branch.1.as_slice(), all)?;
            }
            match other {
                Some(list) => add_statements(list.as_slice(), all),
                None => Ok(()),
            }
        }
        Stmt::For { body, .. } => add_statements(body.as_slice(), all),
        Stmt::While { body, .. } => add_statements(body.as_slice(), all),
        Stmt::Repeat { body, .. } => add_statements(body.as_slice(), all),
        Stmt::Assign { .. } => Ok(()),
        Stmt::AssignCall { .. } => Ok(()),
        Stmt::Exit(_) => Ok(()),
        Stmt::Continue(_) => Ok(()),
        Stmt::Return(_) => Ok(()),
        Stmt::Call(_) => Ok(()),
        Stmt::Empty(_) => Ok(()),
    }
}

/// Adds statements and all in them.
#[cycle(gathering)]
fn add_statements<'p>(list: &'p [Stmt], all: &mut Vec<&'p Stmt>) -> Result<(), AllocError>
    ensures { OnOk result (map (λ s. stmt_tree s.now) all.new.items
        ≡ map (λ s. stmt_tree s.now) all.old.items ++ all_of (stmt_trees list.now)) }
{
    for stmt in list {
        add_statement(stmt, all)?;
    }
    Ok(())
}

/// The statements of a list with all in them.
pub(crate) fn statements_of(alloc: Global, list: &[Stmt]) -> Result<Vec<&Stmt>, AllocError>
    ensures { IfOk result (λ v. map (λ s. stmt_tree s.now) v.items ≡ all_of (stmt_trees list.now)) }
{
    let mut all = Vec::new(alloc);
    add_statements(list, &mut all)?;
    Ok(all)
}
