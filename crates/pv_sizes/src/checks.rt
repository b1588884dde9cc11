//! The checks of expressions and operands.
ghost use Rattle.std.specs.Prelude.{◌≡◌};
ghost use Rattle.pv_tree.specs.View.{expr_tree, operand_tree, step_tree};
ghost use Rattle.pv_names.specs.InScope.{scope_of};
ghost use Rattle.pv_sizes.specs.Checks as checks;
ghost use Rattle.pv_sizes.specs.Counts.{capped};

use crate::brief::is_brief;
use crate::count::{one_if, sum};
use pv_names::{Scope, is_literal};
use pv_tree::{BinaryOp, Expr, Operand, Step};

/// Whether an operator has a divisor.
fn divides(op: BinaryOp) -> bool
    ensures { result ≡ checks.divides op }
{
    match op {
        BinaryOp::Div | BinaryOp::Mod => true,
        BinaryOp::Mul | BinaryOp::Add | BinaryOp::Sub => false,
        BinaryOp::Less | BinaryOp::Greater => false,
        BinaryOp::LessEqual | BinaryOp::GreaterEqual => false,
        BinaryOp::Equal | BinaryOp::NotEqual => false,
        BinaryOp::And | BinaryOp::Xor | BinaryOp::Or => false,
    }
}

/// How many checks an expression of the scope's block makes: zero divisors, indexes that are no literals, and reads of cells that live
/// within one activation; [`crate::BEYOND`] where there are more than [`crate::MAX_EDGES`].
#[cycle(checking)]
pub fn expr_size(scope: &Scope, e: &Expr) -> u64
    ensures { result ≡ capped (checks.checks_of (scope_of scope.now) (expr_tree e.now)) }
{
    match e {
        Expr::Lit { .. } => 0,
        Expr::Read(operand) => {
            let found = target_size(scope, operand);
            sum(found, one_if(is_brief(scope, operand)))
        }
        Expr::Unary { arg, .. } => expr_size(scope, arg),
        Expr::Binary {
            op,
            left,
            right,
            ..
        } => {
            let first = expr_size(scope, left);
            let second = expr_size(scope, right);
            sum(sum(first, second), one_if(divides(*op)))
        }
        Expr::Std { args, .. } => {
            let mut total = 0;
            for arg in args {
                total = sum(total, expr_size(scope, arg));
            }
            total
        }
        Expr::Paren(_, inner) => expr_size(scope, inner),
    }
}

/// How many checks finding an operand makes: those of its indexes.
#[cycle(checking)]
pub(crate) fn target_size(scope: &Scope, operand: &Operand) -> u64
    ensures { result
        ≡ capped (checks.checks_of_target (scope_of scope.now) (operand_tree operand.now)) }
{
    let mut total = 0;
    for step in &operand.steps {
        total = sum(total, step_size(scope, step));
    }
    total
}

/// How many checks a step makes.
#[cycle(checking)]
fn step_size(scope: &Scope, step: &Step) -> u64
    ensures { result ≡ capped (checks.checks_of_step (scope_of scope.now) (step_tree step.now)) }
{
    match step {
        Step::Field(..) => 0,
        Step::Index(e, _) => {
            let inner = expr_size(scope, e);
            sum(inner, one_if(!is_literal(e)))
        }
    }
}
