//! Expressions and operands of a block, put behind the values and targets of the program.
ghost use Rattle.std.specs.Prelude.{◌≡◌, IfOk, IfErr, OnOk};
ghost use Rattle.pv_tree.specs.View.{expr_tree, operand_tree};
ghost use Rattle.pv_mean.specs.Sources.{Source};
ghost use Rattle.pv_mean.specs.Statements.{counter};
ghost use Rattle.pv_run.specs.Code.{IsValue, IsTarget};
ghost use Rattle.pv_resolve.specs.Contexts.{IsContext, block_in};
ghost use Rattle.pv_resolve.specs.Rooms.{HasRoom, FitsExpr, FitsOperand};
ghost use Rattle.pv_resolve.specs.declared.fault.ResolveFault.TheVariants.{NoMemory};
ghost use Rattle.pv_program.specs.Growth.{Extends};

use crate::grow::{push_target, push_value};
use pv_place::Place;
use pv_resolve::{Context, ResolveFault};
use pv_run::Program;
use pv_tree::{Expr, Operand, Root};
use pv_types::Name;
use std::alloc::{AllocError, Global};

/// Puts an expression of the block behind the values, and gives its number.
pub(crate) fn add_value(
    alloc: Global,
    context: &Context,
    program: &mut Program,
    e: &Expr,
) -> Result<usize, ResolveFault>
    ensures grows { OnOk result (Extends program.old program.new) }
    ensures means { (source : Source) → IsContext context.now source
        → IfOk result (λ n. IsValue source (block_in context.now) program.new n (expr_tree e.now)) }
    ensures room { (source : Source) → IsContext context.now source
        → HasRoom source (block_in context.now) → FitsExpr (expr_tree e.now)
        → IfErr result (λ e. e ≡ NoMemory) }
    ensures calls { OnOk result (program.new.calls ≡ program.old.calls) }
{
    let value = context.expression(alloc, e)?;
    let n = push_value(program, value)?;
    Ok(n)
}

/// Puts an operand of the block behind the targets, and gives its number.
pub(crate) fn add_target(
    alloc: Global,
    context: &Context,
    program: &mut Program,
    operand: &Operand,
) -> Result<usize, ResolveFault>
    ensures grows { OnOk result (Extends program.old program.new) }
    ensures means { (source : Source) → IsContext context.now source
        → IfOk result (λ n. IsTarget source (block_in context.now) program.new n
        (operand_tree operand.now)) }
    ensures room { (source : Source) → IsContext context.now source
        → HasRoom source (block_in context.now) → FitsOperand (operand_tree operand.now)
        → IfErr result (λ e. e ≡ NoMemory) }
    ensures calls { OnOk result (program.new.calls ≡ program.old.calls) }
{
    let target = context.target(alloc, operand)?;
    let n = push_target(program, target)?;
    Ok(n)
}

/// The variable of a FOR as an operand.
fn counter(alloc: Global, name: &Name, place: Place) -> Result<Operand, AllocError>
    ensures { IfOk result (λ o. operand_tree o ≡ counter name.now place) }
{
    let copy = name.clone()?;
    let root = Root::Local {
        name: copy,
        hash: false,
        place,
    };
    let root = Box::new(alloc, root)?;
    Ok(Operand {
        root,
        steps: Vec::new(alloc),
        place,
    })
}

/// Puts the variable of a FOR behind the targets, and gives its number.
pub(crate) fn add_counter(
    alloc: Global,
    context: &Context,
    program: &mut Program,
    name: &Name,
    place: Place,
) -> Result<usize, ResolveFault>
    ensures grows { OnOk result (Extends program.old program.new) }
    ensures means { (source : Source) → IsContext context.now source
        → IfOk result (λ n. IsTarget source (block_in context.now) program.new n
        (counter name.now place)) }
    ensures room { (source : Source) → IsContext context.now source
        → HasRoom source (block_in context.now)
        → IfErr result (λ e. e ≡ NoMemory) }
    ensures calls { OnOk result (program.new.calls ≡ program.old.calls) }
{
    let operand = counter(alloc, name, place)?;
    add_target(alloc, context, program, &operand)
}
