//! Statements in which no others stand.
ghost use Rattle.std.specs.Prelude.{◌≡◌, IfOk, IfErr, OnOk};
ghost use Rattle.pv_place.specs.declared.place.Place.{Place};
ghost use Rattle.pv_tree.specs.Tree.{assign, assign_call, call_};
ghost use Rattle.pv_tree.specs.View.{expr_tree, operand_tree, call_tree};
ghost use Rattle.pv_mean.specs.Sources.{Source};
ghost use Rattle.pv_resolve.specs.Contexts.{IsContext, block_in};
ghost use Rattle.pv_tree.specs.Callees.{as_statement, as_value};
ghost use Rattle.pv_tree.specs.Parts.{site};
ghost use Rattle.pv_resolve.specs.Rooms.{HasRoom, FitsExpr, FitsOperand};
ghost use Rattle.pv_resolve.specs.declared.fault.ResolveFault.TheVariants.{NoMemory};
ghost use Rattle.pv_laws_room.specs.Bodies.{FitsCall};
ghost use Rattle.pv_program.specs.Growth.{Extends};
ghost use Rattle.pv_program.specs.Led.{AreLed, HasAllRoom, RunsLed};
ghost use Rattle.pv_program.specs.Made.{IsNext};

use crate::call::add_call;
use crate::value::{add_target, add_value};
use pv_names::How;
use pv_place::Place;
use pv_resolve::{Context, ResolveFault};
use pv_run::{Program, Stmt};
use pv_tree::{CallTree, Expr, Operand};
use std::alloc::Global;

pub(crate) fn make_assign(
    alloc: Global,
    context: &Context,
    program: &mut Program,
    target: &Operand,
    value: &Expr,
) -> Result<Stmt, ResolveFault>
    ensures grows { OnOk result (Extends program.old program.new) }
    ensures means { (source : Source) (place : Place) → IsContext context.now source
        → IfOk result (λ c. IsNext source (block_in context.now) program.new c
        (assign (operand_tree target.now) place (expr_tree value.now))) }
    ensures calls { OnOk result (program.new.calls ≡ program.old.calls) }
    ensures room { (source : Source) → IsContext context.now source
        → HasRoom source (block_in context.now)
        → FitsOperand (operand_tree target.now) → FitsExpr (expr_tree value.now)
        → IfErr result (λ e. e ≡ NoMemory) }
{
    let from = add_value(alloc, context, program, value)?;
    let to = add_target(alloc, context, program, target)?;
    Ok(Stmt::Assign { value: from, to })
}

pub(crate) fn make_assign_call(
    alloc: Global,
    context: &Context,
    program: &mut Program,
    target: &Operand,
    call: &CallTree,
) -> Result<Stmt, ResolveFault>
    ensures grows { OnOk result (Extends program.old program.new) }
    ensures means { (source : Source) (place : Place) → IsContext context.now source
        → IfOk result (λ c. IsNext source (block_in context.now) program.new c
        (assign_call (operand_tree target.now) place (call_tree call.now))) }
    ensures room { (source : Source) → IsContext context.now source
        → HasAllRoom source (block_in context.now)
        → FitsOperand (operand_tree target.now) → FitsCall (call_tree call.now)
        → RunsLed source (block_in context.now) (site as_value (call_tree call.now))
        → IfErr result (λ e. e ≡ NoMemory) }
    ensures led { (source : Source) → IsContext context.now source
        → RunsLed source (block_in context.now) (site as_value (call_tree call.now))
        → AreLed source program.old.calls.items
        → OnOk result (AreLed source program.new.calls.items) }
{
    let made = add_call(alloc, context, How::Value, call, program)?;
    let to = add_target(alloc, context, program, target)?;
    Ok(Stmt::AssignCall {
        call: made,
        to,
        place: call.place,
    })
}

pub(crate) fn make_called(
    alloc: Global,
    context: &Context,
    program: &mut Program,
    call: &CallTree,
) -> Result<Stmt, ResolveFault>
    ensures grows { OnOk result (Extends program.old program.new) }
    ensures means { (source : Source) → IsContext context.now source
        → IfOk result (λ c. IsNext source (block_in context.now) program.new c
        (call_ (call_tree call.now))) }
    ensures room { (source : Source) → IsContext context.now source
        → HasAllRoom source (block_in context.now)
        → FitsCall (call_tree call.now)
        → RunsLed source (block_in context.now) (site as_statement (call_tree call.now))
        → IfErr result (λ e. e ≡ NoMemory) }
    ensures led { (source : Source) → IsContext context.now source
        → RunsLed source (block_in context.now) (site as_statement (call_tree call.now))
        → AreLed source program.old.calls.items
        → OnOk result (AreLed source program.new.calls.items) }
{
    let made = add_call(alloc, context, How::Statement, call, program)?;
    Ok(Stmt::Call(made))
}
