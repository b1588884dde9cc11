//! The walk over the statements of a block, each with the loops around it, to the nearest places of all that is looked for.
//!
//! What is looked for are rules at one statement by itself (`sites`); the walk knows only where the statements are. It recurses as
//! deep as they nest.
ghost use Rattle.std.specs.Prelude.{◌≡◌, ◌∷◌, IfOk, OnOk, map, option_map};
ghost use Rattle.pv_tree.specs.View.{expr_tree, stmt_tree, stmt_trees, arms_of, branches_of, else_of};
ghost use Rattle.pv_tree.specs.Parts.{a_for, spots_of, spots_of_stmts, spots_of_arms, spots_of_branches, spots_of_else};
ghost use Rattle.pv_names.specs.InScope.{scope_of};
ghost use Rattle.pv_rules_code.specs.Nears.{HasSitesIn};
ghost use Rattle.pv_rules_code.specs.Sites.{site_place};
ghost use Rattle.pv_rules_code.specs.Spots.{loop_tree};

use crate::around::Loop;
use crate::near::SiteNear;
use crate::sites::add_sites;
use pv_names::Scope;
use pv_tree::{ChoiceRange, Expr, ForHead, Stmt};
use std::alloc::{AllocError, Global};

/// The loops around the statements of a loop.
fn inside<'w>(
    alloc: Global,
    this: Loop<'w>,
    loops: &[Loop<'w>],
) -> Result<Vec<Loop<'w>>, AllocError>
    ensures { IfOk result (λ v. v.items ≡ this.entry ∷ loops.now) }
{
    let mut all = Vec::new(alloc);
    all.push(this)?;
    all.extend_from_slice(loops)?;
    Ok(all)
}

/// The loop of a FOR, by what stands before DO.
fn loop_of(head: &ForHead) -> Loop
    ensures { loop_tree result ≡ a_for head.now.var }
{
    Loop::For(&head.var)
}

/// The nearest places, with those of what the arms of an IF run.
#[cycle(walking)]
fn walk_arms<'w>(
    scope: &Scope,
    alloc: Global,
    loops: &[Loop<'w>],
    arms: &'w Vec<(Expr, Vec<Stmt>)>,
    near: &mut SiteNear,
) -> Result<(), AllocError>
    ensures { OnOk result (HasSitesIn (λ what. site_place what (scope_of scope.now))
        (spots_of_arms (map loop_tree loops.now) (arms_of
        (map (λ a. (expr_tree a.0, stmt_trees a.1.items)) arms.now.items))) near.old near.new) }
{
    for arm in arms {
        walk_all(scope, alloc, loops, arm.1.as_slice(), near)?;
    }
    Ok(())
}

/// The nearest places, with those of what the branches of a CASE run.
#[cycle(walking)]
fn walk_branches<'w>(
    scope: &Scope,
    alloc: Global,
    loops: &[Loop<'w>],
    branches: &'w Vec<(Vec<ChoiceRange>, Vec<Stmt>)>,
    near: &mut SiteNear,
) -> Result<(), AllocError>
    ensures { OnOk result (HasSitesIn (λ what. site_place what (scope_of scope.now))
        (spots_of_branches (map loop_tree loops.now) (branches_of
        (map (λ b. (b.0.items, stmt_trees b.1.items)) branches.now.items))) near.old near.new) }
{
    for branch in branches {
        walk_all(scope, alloc, loops, branch.1.as_slice(), near)?;
    }
    Ok(())
}

/// The nearest places, with those of what stands behind ELSE, if it is there.
#[cycle(walking)]
fn walk_other<'w>(
    scope: &Scope,
    alloc: Global,
    loops: &[Loop<'w>],
    other: &'w Option<Box<Vec<Stmt>>>,
    near: &mut SiteNear,
) -> Result<(), AllocError>
    ensures { OnOk result (HasSitesIn (λ what. site_place what (scope_of scope.now))
        (spots_of_else (map loop_tree loops.now)
        (else_of (option_map (λ o. stmt_trees o.value.items) other.now))) near.old near.new) }
{
    match other {
        Some(list) => walk_all(scope, alloc, loops, list.as_slice(), near),
        None => Ok(()),
    }
}

/// The nearest places, with those of what a loop runs.
#[cycle(walking)]
fn walk_loop<'w>(
    scope: &Scope,
    alloc: Global,
    this: Loop<'w>,
    loops: &[Loop<'w>],
    body: &'w Vec<Stmt>,
    near: &mut SiteNear,
) -> Result<(), AllocError>
    ensures { OnOk result (HasSitesIn (λ what. site_place what (scope_of scope.now))
        (spots_of_stmts (loop_tree this.entry ∷ map loop_tree loops.now)
        (stmt_trees body.now.items)) near.old near.new) }
{
    let inner = inside(alloc, this, loops)?;
    walk_all(scope, alloc, inner.as_slice(), body.as_slice(), near)
}

/// The nearest places, with those of a statement and all in it.
#[cycle(walking)]
fn walk<'w>(
    scope: &Scope,
    alloc: Global,
    loops: &[Loop<'w>],
    stmt: &'w Stmt,
    near: &mut SiteNear,
) -> Result<(), AllocError>
    ensures { OnOk result (HasSitesIn (λ what. site_place what (scope_of scope.now))
        (spots_of (map loop_tree loops.now) (stmt_tree stmt.now)) near.old near.new) }
{
    add_sites(scope, alloc, loops, stmt, near)?;
    match stmt {
        Stmt::If { arms, other, .. } => {
            walk_arms(scope, alloc, loops, arms, near)?;
            walk_other(scope, alloc, loops, other, near)
        }
        Stmt::Case {
            branches,
            other,
            ..
        } => {
            walk_branches(scope, alloc, loops, branches, near)?;
            walk_other(scope, alloc, loops, other, near)
        }
        Stmt::For { head, body, .. } => {
            walk_loop(scope, alloc, loop_of(head), loops, body, near)
        }
        Stmt::While { body, .. } => walk_loop(scope, alloc, Loop::Other, loops, body, near),
        Stmt::Repeat { body, .. } => walk_loop(scope, alloc, Loop::Other, loops, body, near),
        Stmt::Assign { .. } => Ok(()),
        Stmt::AssignCall { .. } => Ok(()),
        Stmt::Exit(_) => Ok(()),
        Stmt::Continue(_) => Ok(()),
        Stmt::Return(_) => Ok(()),
        Stmt::Call(_) => Ok(()),
        Stmt::Empty(_) => Ok(()),
    }
}

/// The nearest places, with those of statements and all in them.
#[cycle(walking)]
pub(crate) fn walk_all<'w>(
    scope: &Scope,
    alloc: Global,
    loops: &[Loop<'w>],
    list: &'w [Stmt],
    near: &mut SiteNear,
) -> Result<(), AllocError>
    ensures { OnOk result (HasSitesIn (λ what. site_place what (scope_of scope.now))
        (spots_of_stmts (map loop_tree loops.now) (stmt_trees list.now)) near.old near.new) }
{
    for stmt in list {
        walk(scope, alloc, loops, stmt, near)?;
    }
    Ok(())
}
