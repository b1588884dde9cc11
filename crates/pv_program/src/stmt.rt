//! Statements, each with the lists in it put behind the program before it.
//!
//! The recursion goes as deep as statements stand inside each other.
ghost use Rattle.std.specs.Prelude.{◌≡◌, length, map, option_map, IfOk, IfErr, IsOk, OnOk};
ghost use Rattle.pv_place.specs.declared.place.Place.{Place};
ghost use Rattle.pv_tree.specs.Tree.{if_, case_, for_, while_, repeat_};
ghost use Rattle.pv_tree.specs.View.{expr_tree, stmt_tree, stmt_trees, arms_of, branches_of, else_of};
ghost use Rattle.pv_mean.specs.Sources.{Source};
ghost use Rattle.pv_mean.specs.Statements.{step_of};
ghost use Rattle.pv_run.specs.Code.{AreArms, AreBranches, Counts};
ghost use Rattle.pv_resolve.specs.Contexts.{IsContext, block_in};
ghost use Rattle.pv_resolve.specs.Rooms.{HasRoom, FitsExpr};
ghost use Rattle.pv_resolve.specs.declared.fault.ResolveFault.TheVariants.{NoMemory};
ghost use Rattle.pv_laws_room.specs.Bodies.{FitsLiteral, FitsStmt, FitsStmts, FitsArms, FitsBranches, FitsElse};
ghost use Rattle.pv_program.specs.Growth.{Extends};
ghost use Rattle.pv_program.specs.Led.{AreLed, HasAllRoom, CallsLed, AllLed, ArmsLed, BranchesLed, ElseLed};
ghost use Rattle.pv_program.specs.Made.{IsNext, IsList, IsOther};

use crate::choice::add_choices;
use crate::grow::{append_arms, append_branches, append_stmts};
use crate::plain::{make_assign, make_assign_call, make_called};
use crate::value::{add_counter, add_value};
use pv_place::Place;
use pv_resolve::{Context, ResolveFault, number_of};
use pv_run::{Arm, Branch, Counting, List, Program, Span, Stmt};
use pv_tree::{ChoiceRange, Expr, ForHead, Stmt as StmtTree};
use pv_types::Literal;
use std::alloc::Global;

/// The step of a FOR: 1 where none is written.
fn step_of(by: &Option<Literal>) -> Result<i64, ResolveFault>
    ensures value { IfOk result (λ v. v ≡ step_of by.now) }
    ensures fits { FitsLiteral by.now → IsOk result }
{
    match by {
        Some(literal) => number_of(&literal.value),
        None => Ok(1),
    }
}

fn make_counting(
    alloc: Global,
    context: &Context,
    program: &mut Program,
    head: &ForHead,
) -> Result<Counting, ResolveFault>
    ensures grows { OnOk result (Extends program.old program.new) }
    ensures counts { (source : Source) → IsContext context.now source
        → IfOk result (λ c. Counts source (block_in context.now) program.new c head.now.var
        head.now.var_place (expr_tree head.now.first) (expr_tree head.now.last) head.now.by) }
    ensures calls { OnOk result (program.new.calls ≡ program.old.calls) }
    ensures room { (source : Source) → IsContext context.now source
        → HasRoom source (block_in context.now)
        → FitsExpr (expr_tree head.now.first) → FitsExpr (expr_tree head.now.last)
        → FitsLiteral head.now.by
        → IfErr result (λ e. e ≡ NoMemory) }
{
    let from = add_value(alloc, context, program, &head.first)?;
    let to = add_value(alloc, context, program, &head.last)?;
    let variable = add_counter(alloc, context, program, &head.var, head.var_place)?;
    let step = step_of(&head.by)?;
    Ok(Counting {
        first: from,
        last: to,
        variable,
        variable_place: head.var_place,
        by: step,
    })
}

/// Puts the arms of an IF behind those of the program, and what they run behind its statements.
#[cycle(making)]
fn make_arms(
    alloc: Global,
    context: &Context,
    program: &mut Program,
    arms: &Vec<(Expr, Vec<StmtTree>)>,
) -> Result<Span, ResolveFault>
    ensures grows { OnOk result (Extends program.old program.new) }
    ensures are { (source : Source) → IsContext context.now source
        → IfOk result (λ s. AreArms source (block_in context.now) program.new
        (length program.new.stmts.items) s.first s.end
        (arms_of (map (λ a. (expr_tree a.0, stmt_trees a.1.items)) arms.now.items))) }
    ensures room { (source : Source) → IsContext context.now source
        → HasAllRoom source (block_in context.now)
        → FitsArms (arms_of (map (λ a. (expr_tree a.0, stmt_trees a.1.items)) arms.now.items))
        → ArmsLed source (block_in context.now)
        (arms_of (map (λ a. (expr_tree a.0, stmt_trees a.1.items)) arms.now.items))
        → IfErr result (λ e. e ≡ NoMemory) }
    ensures led { (source : Source) → IsContext context.now source
        → ArmsLed source (block_in context.now)
        (arms_of (map (λ a. (expr_tree a.0, stmt_trees a.1.items)) arms.now.items))
        → AreLed source program.old.calls.items
        → OnOk result (AreLed source program.new.calls.items) }
{
    let mut made = Vec::new(alloc);
    for arm in arms {
        let condition = add_value(alloc, context, program, &arm.0)?;
        let body = make_list(alloc, context, program, arm.1.as_slice())?;
        made.push(Arm { condition, body })?;
    }
    let span = append_arms(program, made.as_slice())?;
    Ok(span)
}

/// Puts the branches of a CASE behind those of the program, and what they run behind its statements.
#[cycle(making)]
fn make_branches(
    alloc: Global,
    context: &Context,
    program: &mut Program,
    branches: &Vec<(Vec<ChoiceRange>, Vec<StmtTree>)>,
) -> Result<Span, ResolveFault>
    ensures grows { OnOk result (Extends program.old program.new) }
    ensures are { (source : Source) → IsContext context.now source
        → IfOk result (λ s. AreBranches source (block_in context.now) program.new
        (length program.new.stmts.items) s.first s.end
        (branches_of (map (λ b. (b.0.items, stmt_trees b.1.items)) branches.now.items))) }
    ensures room { (source : Source) → IsContext context.now source
        → HasAllRoom source (block_in context.now)
        → FitsBranches (branches_of (map (λ b. (b.0.items, stmt_trees b.1.items)) branches.now.items))
        → BranchesLed source (block_in context.now)
        (branches_of (map (λ b. (b.0.items, stmt_trees b.1.items)) branches.now.items))
        → IfErr result (λ e. e ≡ NoMemory) }
    ensures led { (source : Source) → IsContext context.now source
        → BranchesLed source (block_in context.now)
        (branches_of (map (λ b. (b.0.items, stmt_trees b.1.items)) branches.now.items))
        → AreLed source program.old.calls.items
        → OnOk result (AreLed source program.new.calls.items) }
{
    let mut made = Vec::new(alloc);
    for branch in branches {
        let choices = add_choices(alloc, context, program, branch.0.as_slice())?;
        let body = make_list(alloc, context, program, branch.1.as_slice())?;
        made.push(Branch { choices, body })?;
    }
    let span = append_branches(program, made.as_slice())?;
    Ok(span)
}

/// What stands behind ELSE; nothing where it isn't there.
#[cycle(making)]
fn make_other(
    alloc: Global,
    context: &Context,
    program: &mut Program,
    other: &Option<Box<Vec<StmtTree>>>,
) -> Result<List, ResolveFault>
    ensures grows { OnOk result (Extends program.old program.new) }
    ensures is { (source : Source) → IsContext context.now source
        → IfOk result (λ l. IsOther source (block_in context.now) program.new l
        (else_of (option_map (λ o. stmt_trees o.value.items) other.now))) }
    ensures room { (source : Source) → IsContext context.now source
        → HasAllRoom source (block_in context.now)
        → FitsElse (else_of (option_map (λ o. stmt_trees o.value.items) other.now))
        → ElseLed source (block_in context.now)
        (else_of (option_map (λ o. stmt_trees o.value.items) other.now))
        → IfErr result (λ e. e ≡ NoMemory) }
    ensures led { (source : Source) → IsContext context.now source
        → ElseLed source (block_in context.now)
        (else_of (option_map (λ o. stmt_trees o.value.items) other.now))
        → AreLed source program.old.calls.items
        → OnOk result (AreLed source program.new.calls.items) }
{
    match other {
        Some(list) => make_list(alloc, context, program, list.as_slice()),
        None => Ok(List { first: 0, end: 0 }),
    }
}

#[cycle(making)]
fn make_if(
    alloc: Global,
    context: &Context,
    program: &mut Program,
    arms: &Vec<(Expr, Vec<StmtTree>)>,
    other: &Option<Box<Vec<StmtTree>>>,
) -> Result<Stmt, ResolveFault>
    ensures grows { OnOk result (Extends program.old program.new) }
    ensures means { (source : Source) (place : Place) → IsContext context.now source
        → IfOk result (λ c. IsNext source (block_in context.now) program.new c
        (if_ (arms_of (map (λ a. (expr_tree a.0, stmt_trees a.1.items)) arms.now.items))
        (else_of (option_map (λ o. stmt_trees o.value.items) other.now)) place)) }
    ensures room { (source : Source) → IsContext context.now source
        → HasAllRoom source (block_in context.now)
        → FitsArms (arms_of (map (λ a. (expr_tree a.0, stmt_trees a.1.items)) arms.now.items))
        → FitsElse (else_of (option_map (λ o. stmt_trees o.value.items) other.now))
        → ArmsLed source (block_in context.now)
        (arms_of (map (λ a. (expr_tree a.0, stmt_trees a.1.items)) arms.now.items))
        → ElseLed source (block_in context.now)
        (else_of (option_map (λ o. stmt_trees o.value.items) other.now))
        → IfErr result (λ e. e ≡ NoMemory) }
    ensures led { (source : Source) → IsContext context.now source
        → ArmsLed source (block_in context.now)
        (arms_of (map (λ a. (expr_tree a.0, stmt_trees a.1.items)) arms.now.items))
        → ElseLed source (block_in context.now)
        (else_of (option_map (λ o. stmt_trees o.value.items) other.now))
        → AreLed source program.old.calls.items
        → OnOk result (AreLed source program.new.calls.items) }
{
    let span = make_arms(alloc, context, program, arms)?;
    let list = make_other(alloc, context, program, other)?;
    Ok(Stmt::If {
        arms: span,
        other: list,
    })
}

#[cycle(making)]
fn make_case(
    alloc: Global,
    context: &Context,
    program: &mut Program,
    selector: &Expr,
    branches: &Vec<(Vec<ChoiceRange>, Vec<StmtTree>)>,
    other: &Option<Box<Vec<StmtTree>>>,
) -> Result<Stmt, ResolveFault>
    ensures grows { OnOk result (Extends program.old program.new) }
    ensures means { (source : Source) (place : Place) → IsContext context.now source
        → IfOk result (λ c. IsNext source (block_in context.now) program.new c
        (case_ (expr_tree selector.now)
        (branches_of (map (λ b. (b.0.items, stmt_trees b.1.items)) branches.now.items))
        (else_of (option_map (λ o. stmt_trees o.value.items) other.now)) place)) }
    ensures room { (source : Source) → IsContext context.now source
        → HasAllRoom source (block_in context.now)
        → FitsExpr (expr_tree selector.now)
        → FitsBranches (branches_of (map (λ b. (b.0.items, stmt_trees b.1.items)) branches.now.items))
        → FitsElse (else_of (option_map (λ o. stmt_trees o.value.items) other.now))
        → BranchesLed source (block_in context.now)
        (branches_of (map (λ b. (b.0.items, stmt_trees b.1.items)) branches.now.items))
        → ElseLed source (block_in context.now)
        (else_of (option_map (λ o. stmt_trees o.value.items) other.now))
        → IfErr result (λ e. e ≡ NoMemory) }
    ensures led { (source : Source) → IsContext context.now source
        → BranchesLed source (block_in context.now)
        (branches_of (map (λ b. (b.0.items, stmt_trees b.1.items)) branches.now.items))
        → ElseLed source (block_in context.now)
        (else_of (option_map (λ o. stmt_trees o.value.items) other.now))
        → AreLed source program.old.calls.items
        → OnOk result (AreLed source program.new.calls.items) }
{
    let value = add_value(alloc, context, program, selector)?;
    let span = make_branches(alloc, context, program, branches)?;
    let list = make_other(alloc, context, program, other)?;
    Ok(Stmt::Case {
        selector: value,
        branches: span,
        other: list,
    })
}

#[cycle(making)]
fn make_for(
    alloc: Global,
    context: &Context,
    program: &mut Program,
    head: &ForHead,
    body: &Vec<StmtTree>,
    place: Place,
) -> Result<Stmt, ResolveFault>
    ensures grows { OnOk result (Extends program.old program.new) }
    ensures means { (source : Source) → IsContext context.now source
        → IfOk result (λ c. IsNext source (block_in context.now) program.new c
        (for_ head.now.var head.now.var_place (expr_tree head.now.first) (expr_tree head.now.last)
        head.now.by (stmt_trees body.now.items) place)) }
    ensures room { (source : Source) → IsContext context.now source
        → HasAllRoom source (block_in context.now)
        → FitsExpr (expr_tree head.now.first) → FitsExpr (expr_tree head.now.last)
        → FitsLiteral head.now.by
        → FitsStmts (stmt_trees body.now.items)
        → AllLed source (block_in context.now) (stmt_trees body.now.items)
        → IfErr result (λ e. e ≡ NoMemory) }
    ensures led { (source : Source) → IsContext context.now source
        → AllLed source (block_in context.now) (stmt_trees body.now.items)
        → AreLed source program.old.calls.items
        → OnOk result (AreLed source program.new.calls.items) }
{
    let count = make_counting(alloc, context, program, head)?;
    let list = make_list(alloc, context, program, body.as_slice())?;
    Ok(Stmt::For {
        count,
        body: list,
        place,
    })
}

#[cycle(making)]
fn make_while(
    alloc: Global,
    context: &Context,
    program: &mut Program,
    cond: &Expr,
    body: &Vec<StmtTree>,
    place: Place,
) -> Result<Stmt, ResolveFault>
    ensures grows { OnOk result (Extends program.old program.new) }
    ensures means { (source : Source) → IsContext context.now source
        → IfOk result (λ c. IsNext source (block_in context.now) program.new c
        (while_ (expr_tree cond.now) (stmt_trees body.now.items) place)) }
    ensures room { (source : Source) → IsContext context.now source
        → HasAllRoom source (block_in context.now)
        → FitsExpr (expr_tree cond.now) → FitsStmts (stmt_trees body.now.items)
        → AllLed source (block_in context.now) (stmt_trees body.now.items)
        → IfErr result (λ e. e ≡ NoMemory) }
    ensures led { (source : Source) → IsContext context.now source
        → AllLed source (block_in context.now) (stmt_trees body.now.items)
        → AreLed source program.old.calls.items
        → OnOk result (AreLed source program.new.calls.items) }
{
    let test = add_value(alloc, context, program, cond)?;
    let list = make_list(alloc, context, program, body.as_slice())?;
    Ok(Stmt::While {
        test,
        body: list,
        place,
    })
}

#[cycle(making)]
fn make_repeat(
    alloc: Global,
    context: &Context,
    program: &mut Program,
    body: &Vec<StmtTree>,
    cond: &Expr,
    place: Place,
) -> Result<Stmt, ResolveFault>
    ensures grows { OnOk result (Extends program.old program.new) }
    ensures means { (source : Source) → IsContext context.now source
        → IfOk result (λ c. IsNext source (block_in context.now) program.new c
        (repeat_ (stmt_trees body.now.items) (expr_tree cond.now) place)) }
    ensures room { (source : Source) → IsContext context.now source
        → HasAllRoom source (block_in context.now)
        → FitsExpr (expr_tree cond.now) → FitsStmts (stmt_trees body.now.items)
        → AllLed source (block_in context.now) (stmt_trees body.now.items)
        → IfErr result (λ e. e ≡ NoMemory) }
    ensures led { (source : Source) → IsContext context.now source
        → AllLed source (block_in context.now) (stmt_trees body.now.items)
        → AreLed source program.old.calls.items
        → OnOk result (AreLed source program.new.calls.items) }
{
    let list = make_list(alloc, context, program, body.as_slice())?;
    let test = add_value(alloc, context, program, cond)?;
    Ok(Stmt::Repeat {
        body: list,
        test,
        place,
    })
}

/// Makes a statement of the block, which may stand behind those of the program.
#[cycle(making)]
fn make_stmt(
    alloc: Global,
    context: &Context,
    program: &mut Program,
    stmt: &StmtTree,
) -> Result<Stmt, ResolveFault>
    ensures grows { OnOk result (Extends program.old program.new) }
    ensures means { (source : Source) → IsContext context.now source
        → IfOk result (λ c. IsNext source (block_in context.now) program.new c
        (stmt_tree stmt.now)) }
    ensures room { (source : Source) → IsContext context.now source
        → HasAllRoom source (block_in context.now)
        → FitsStmt (stmt_tree stmt.now)
        → CallsLed source (block_in context.now) (stmt_tree stmt.now)
        → IfErr result (λ e. e ≡ NoMemory) }
    ensures led { (source : Source) → IsContext context.now source
        → CallsLed source (block_in context.now) (stmt_tree stmt.now)
        → AreLed source program.old.calls.items
        → OnOk result (AreLed source program.new.calls.items) }
{
    match stmt {
        StmtTree::Assign { target, value, .. } => {
            make_assign(alloc, context, program, target, value)
        }
        StmtTree::AssignCall { target, call, .. } => {
            make_assign_call(alloc, context, program, target, call)
        }
        StmtTree::If { arms, other, .. } => make_if(alloc, context, program, arms, other),
        StmtTree::Case {
            selector,
            branches,
            other,
            ..
        } => make_case(alloc, context, program, selector, branches, other),
        StmtTree::For { head, body, place } => {
            make_for(alloc, context, program, head, body, *place)
        }
        StmtTree::While { cond, body, place } => {
            make_while(alloc, context, program, cond, body, *place)
        }
        StmtTree::Repeat { body, cond, place } => {
            make_repeat(alloc, context, program, body, cond, *place)
        }
        StmtTree::Exit(_) => Ok(Stmt::Exit),
        StmtTree::Continue(_) => Ok(Stmt::Continue),
        StmtTree::Return(_) => Ok(Stmt::Return),
        StmtTree::Call(call) => make_called(alloc, context, program, call),
        StmtTree::Empty(_) => Ok(Stmt::Empty),
    }
}

/// Puts the statements of a list behind those of the program, one behind the other.
#[cycle(making)]
pub(crate) fn make_list(
    alloc: Global,
    context: &Context,
    program: &mut Program,
    list: &[StmtTree],
) -> Result<List, ResolveFault>
    ensures grows { OnOk result (Extends program.old program.new) }
    ensures is { (source : Source) → IsContext context.now source
        → IfOk result (λ l. IsList source (block_in context.now) program.new l (stmt_trees list.now)) }
    ensures room { (source : Source) → IsContext context.now source
        → HasAllRoom source (block_in context.now)
        → FitsStmts (stmt_trees list.now)
        → AllLed source (block_in context.now) (stmt_trees list.now)
        → IfErr result (λ e. e ≡ NoMemory) }
    ensures led { (source : Source) → IsContext context.now source
        → AllLed source (block_in context.now) (stmt_trees list.now)
        → AreLed source program.old.calls.items
        → OnOk result (AreLed source program.new.calls.items) }
{
    let mut made = Vec::new(alloc);
    for stmt in list {
        let next = make_stmt(alloc, context, program, stmt)?;
        made.push(next)?;
    }
    let all = append_stmts(program, made.as_slice())?;
    Ok(all)
}
