//! The sizes of statements and blocks.
//!
//! Statements are gone through as deep as they nest.
ghost use Rattle.std.specs.Prelude.{◌≡◌, ◌+◌};
ghost use Rattle.pv_tree.specs.View.{expr_tree, stmt_tree, stmt_trees};
ghost use Rattle.pv_names.specs.InScope.{scope_of};
ghost use Rattle.pv_sizes.specs.Checks.{checks_of};
ghost use Rattle.pv_sizes.specs.Counts.{capped};
ghost use Rattle.pv_sizes.specs.Sizes as sizes;
ghost use Rattle.pv_sizes.specs.Steps.{arm_trees, branch_trees, other_tree};

use crate::calls::call_size;
use crate::checks::{expr_size, target_size};
use crate::count::sum;
use crate::instructions::instrs_size;
use pv_names::{How, Scope};
use pv_tree::{Body, ChoiceRange, Expr, ForHead, Stmt};

/// The size of the arms of an IF.
#[cycle(sizing)]
fn arms_size(scope: &Scope, arms: &Vec<(Expr, Vec<Stmt>)>) -> u64
    ensures { result ≡ capped (sizes.size_of_arms (scope_of scope.now) (arm_trees arms.now.items)) }
{
    let mut total = 0;
    for arm in arms {
        let test = sum(expr_size(scope, &arm.0), 2);
        total = sum(total, sum(test, stmt_size(scope, arm.1.as_slice())));
    }
    total
}

/// The size of the branches of a CASE.
#[cycle(sizing)]
fn branches_size(scope: &Scope, branches: &Vec<(Vec<ChoiceRange>, Vec<Stmt>)>) -> u64
    ensures { result
        ≡ capped (sizes.size_of_branches (scope_of scope.now) (branch_trees branches.now.items)) }
{
    let mut total = 0;
    for branch in branches {
        total = sum(total, sum(2, stmt_size(scope, branch.1.as_slice())));
    }
    total
}

/// The size of what stands behind ELSE; 0 where it isn't there.
#[cycle(sizing)]
fn other_size(scope: &Scope, other: &Option<Box<Vec<Stmt>>>) -> u64
    ensures { result ≡ capped (sizes.size_of_else (scope_of scope.now) (other_tree other.now)) }
{
    match other {
        Some(list) => stmt_size(scope, list.as_slice()),
        None => 0,
    }
}

/// The size of a WHILE or a REPEAT.
#[cycle(sizing)]
fn turns_size(scope: &Scope, cond: &Expr, body: &Vec<Stmt>) -> u64
    ensures { result ≡ capped (checks_of (scope_of scope.now) (expr_tree cond.now) + 2
        + sizes.size_of_list (scope_of scope.now) (stmt_trees body.now.items)) }
{
    sum(
        sum(expr_size(scope, cond), 2),
        stmt_size(scope, body.as_slice()),
    )
}

/// How many checks the start and the end of a FOR make.
fn bounds_size(scope: &Scope, head: &ForHead) -> u64
    ensures { result ≡ capped (checks_of (scope_of scope.now) (expr_tree head.now.first)
        + checks_of (scope_of scope.now) (expr_tree head.now.last)) }
{
    sum(expr_size(scope, &head.first), expr_size(scope, &head.last))
}

/// The size of a statement.
#[cycle(sizing)]
fn one_size(scope: &Scope, stmt: &Stmt) -> u64
    ensures { result ≡ capped (sizes.size_of_stmt (scope_of scope.now) (stmt_tree stmt.now)) }
{
    match stmt {
        Stmt::Assign { target, value, .. } => {
            sum(sum(target_size(scope, target), expr_size(scope, value)), 1)
        }
        Stmt::AssignCall { target, call, .. } => {
            let made = call_size(scope, How::Value, call);
            sum(sum(made, target_size(scope, target)), 2)
        }
        Stmt::If { arms, other, .. } => sum(arms_size(scope, arms), other_size(scope, other)),
        Stmt::Case {
            selector,
            branches,
            other,
            ..
        } => {
            let test = sum(expr_size(scope, selector), 1);
            let chosen = sum(test, branches_size(scope, branches));
            sum(chosen, other_size(scope, other))
        }
        Stmt::For { head, body, .. } => {
            sum(
                sum(bounds_size(scope, head), stmt_size(scope, body.as_slice())),
                5,
            )
        }
        Stmt::While { cond, body, .. } => turns_size(scope, cond, body),
        Stmt::Repeat { body, cond, .. } => turns_size(scope, cond, body),
        Stmt::Exit(_) => 1,
        Stmt::Continue(_) => 1,
        Stmt::Return(_) => 1,
        Stmt::Call(call) => call_size(scope, How::Statement, call),
        Stmt::Empty(_) => 1,
    }
}

/// The size of a list of statements of the scope's block: how many edges and call edges it has as an automaton;
/// [`crate::BEYOND`] where there are more than [`crate::MAX_EDGES`]. An empty list has size 1.
#[cycle(sizing)]
pub fn stmt_size(scope: &Scope, list: &[Stmt]) -> u64
    ensures { result ≡ capped (sizes.size_of_list (scope_of scope.now) (stmt_trees list.now)) }
{
    if list.is_empty() {
        return 1;
    }
    let mut total = 0;
    for stmt in list {
        total = sum(total, one_size(scope, stmt));
    }
    total
}

/// The size of the scope's block: how many edges and call edges it has as an automaton; [`crate::BEYOND`] where there are more than
/// [`crate::MAX_EDGES`]. A body without statements or instructions has size 1.
pub fn block_size(scope: &Scope) -> u64
    ensures { result ≡ capped (sizes.size_of_block (scope_of scope.now)) }
{
    match &scope.entry.block.body {
        Body::Scl(list) => stmt_size(scope, list.as_slice()),
        Body::Stl(list) => instrs_size(scope, list.as_slice()),
        Body::Starts(_) => 1,
    }
}
