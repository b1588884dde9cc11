//! The operands that an expression reads.
ghost use Rattle.std.specs.Prelude.{◌≡◌, ◌++◌, map, IfOk, OnOk};
ghost use Rattle.pv_tree.specs.Tree.{read};
ghost use Rattle.pv_tree.specs.View.{expr_tree, operand_tree, step_tree};
ghost use Rattle.pv_tree.specs.Operands as operands;

use pv_tree::{Expr, Operand, Step};
use std::alloc::{AllocError, Global};

/// The operands that an expression reads, in the order of the text, those in the indexes of one behind it.
pub(crate) fn operands_in<'e>(alloc: Global, e: &'e Expr) -> Result<Vec<&'e Operand>, AllocError>
    ensures { IfOk result (λ list. map (λ o. operand_tree o.now) list.items
        ≡ operands.operands_in (expr_tree e.now)) }
{
    let mut list = Vec::new(alloc);
    push_expr(&mut list, e)?;
    Ok(list)
}

#[cycle(gathering)]
fn push_expr<'e>(list: &mut Vec<&'e Operand>, e: &'e Expr) -> Result<(), AllocError>
    ensures { OnOk result (map (λ o. operand_tree o.now) list.new.items
        ≡ map (λ o. operand_tree o.now) list.old.items ++ operands.operands_in (expr_tree e.now)) }
{
    match e {
        Expr::Lit { .. } => Ok(()),
        Expr::Read(operand) => push_operand(list, operand),
        Expr::Unary { arg, .. } => push_expr(list, arg),
        Expr::Binary { left, right, .. } => {
            push_expr(list, left)?;
            push_expr(list, right)
        }
        Expr::Std { args, .. } => {
            for arg in args {
                push_expr(list, arg)?;
            }
            Ok(())
        }
        Expr::Paren(_, inner) => push_expr(list, inner),
    }
}

/// An operand, and those in its indexes.
#[cycle(gathering)]
fn push_operand<'e>(list: &mut Vec<&'e Operand>, operand: &'e Operand) -> Result<(), AllocError>
    ensures { OnOk result (map (λ o. operand_tree o.now) list.new.items
        ≡ map (λ o. operand_tree o.now) list.old.items
        ++ operands.operands_in (read (operand_tree operand.now))) }
{
    list.push(operand)?;
    for step in &operand.steps {
        push_step(list, step)?;
    }
    Ok(())
}

#[cycle(gathering)]
fn push_step<'e>(list: &mut Vec<&'e Operand>, step: &'e Step) -> Result<(), AllocError>
    ensures { OnOk result (map (λ o. operand_tree o.now) list.new.items
        ≡ map (λ o. operand_tree o.now) list.old.items
        ++ operands.operands_in_step (step_tree step.now)) }
{
    match step {
        Step::Field(..) => Ok(()),
        Step::Index(e, _) => push_expr(list, e),
    }
}
