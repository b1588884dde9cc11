//! Expressions and assignments as terms, with the checks that they make.
use crate::reading::{expression_of, type_of};
use crate::terms::tell_term;
use pv_access::{Check, Writing};
use pv_flow::{Node, Set};
use pv_lower::{LowerFault, Lowering};
use pv_mean::Cell;
use pv_names::{Want, own_type};
use pv_resolve::Context;
use pv_rows_form::Told;
use pv_tree::{Expr, Operand};
use pv_variables::numbers_of;
use pv_word::Ty;
use std::alloc::Global;

/// What a row asks: an expression, with the type that is wanted of it or none; or what is assigned to a target. `count` where only numbers
/// are told.
#[derive(Clone, Copy)]
pub struct Asked<'a> {
    pub target: Option<&'a str>,
    pub value: &'a str,
    pub want: &'a str,
    pub count: bool,
}

/// What is pushed.
#[derive(Drop)]
struct Pushed {
    nodes: Vec<Node>,
    checks: Vec<Check>,
    sets: Vec<Set>,
}

fn nothing(alloc: Global) -> Pushed {
    Pushed {
        nodes: Vec::new(alloc),
        checks: Vec::new(alloc),
        sets: Vec::new(alloc),
    }
}

// ---- what is told

/// The place, the kind and the term of a check.
fn tell_check(nodes: &[Node], check: &Check, told: &mut Told) {
    told.words(&check.kind);
    told.text(" at ");
    told.number(i128::from(check.place.offset));
    told.text(": ");
    tell_term(nodes, check.term, 20, told);
    told.text("; ");
}

fn tell_checks(pushed: &Pushed, told: &mut Told) {
    for check in &pushed.checks {
        tell_check(pushed.nodes.as_slice(), check, told);
    }
}

fn tell_set(nodes: &[Node], set: &Set, told: &mut Told) {
    told.text("v");
    told.number(i128::from(set.variable));
    told.text(" := ");
    tell_term(nodes, set.value, 20, told);
}

fn tell_sets(pushed: &Pushed, told: &mut Told) {
    let mut between = "";
    for set in &pushed.sets {
        told.text(between);
        tell_set(pushed.nodes.as_slice(), set, told);
        between = ", ";
    }
}

/// How many nodes, checks and sets there are.
fn tell_counts(pushed: &Pushed, told: &mut Told) {
    told.text("nodes ");
    told.number(pushed.nodes.len() as i128);
    told.text(" checks ");
    told.number(pushed.checks.len() as i128);
    told.text(" sets ");
    told.number(pushed.sets.len() as i128);
}

// ---- what is asked

fn push_expression(
    lowering: &Lowering<'_, '_>,
    alloc: Global,
    pushed: &mut Pushed,
    want: Want,
    e: &Expr,
) -> Result<u32, LowerFault> {
    lowering.expression(alloc, &mut pushed.nodes, &mut pushed.checks, want, e)
}

/// The value first, then the target's indexes.
fn push_assignment(
    lowering: &Lowering<'_, '_>,
    alloc: Global,
    pushed: &mut Pushed,
    target: &Operand,
    value: &Expr,
) -> Result<(), LowerFault> {
    let sort = lowering.context.scope.sort_of_operand(alloc, target)?;
    let ty = own_type(sort).unwrap_or(Ty::Dint);
    let term = lowering.expression_as(alloc, &mut pushed.nodes, &mut pushed.checks, ty, value)?;
    let access = lowering.operand(alloc, &mut pushed.nodes, &mut pushed.checks, target)?;
    lowering.writes(
        alloc,
        &mut pushed.nodes,
        &mut pushed.sets,
        &access,
        Writing::Assign(term),
    )
}

fn tell_fault(fault: LowerFault, told: &mut Told) {
    told.words(&fault);
}

fn tell_pushed(pushed: &Pushed, count: bool, told: &mut Told) {
    if count {
        tell_counts(pushed, told);
    } else {
        tell_checks(pushed, told);
        tell_sets(pushed, told);
    }
}

fn tell_target(
    lowering: &Lowering<'_, '_>,
    target: &Operand,
    value: &Expr,
    count: bool,
    told: &mut Told,
) {
    let mut pushed = nothing(told.alloc());
    match push_assignment(lowering, told.alloc(), &mut pushed, target, value) {
        Ok(()) => tell_pushed(&pushed, count, told),
        Err(fault) => tell_fault(fault, told),
    }
}

/// The sets of what is assigned to the operand that a text reads as.
fn tell_assignment(
    lowering: &Lowering<'_, '_>,
    text: &str,
    value: &Expr,
    count: bool,
    told: &mut Told,
) {
    match expression_of(text, told) {
        Some(Expr::Read(operand)) => {
            tell_target(lowering, &operand, value, count, told);
            drop(operand);
        }
        Some(other) => {
            drop(other);
            told.text("no operand");
        }
        None => {}
    }
}

fn want_of(word: &str) -> Want {
    match word {
        "" => Want::Nothing,
        _ => Want::This(type_of(word)),
    }
}

fn tell_expression(lowering: &Lowering<'_, '_>, e: &Expr, asked: &Asked<'_>, told: &mut Told) {
    let mut pushed = nothing(told.alloc());
    match push_expression(lowering, told.alloc(), &mut pushed, want_of(asked.want), e) {
        Ok(n) => {
            tell_pushed(&pushed, asked.count, told);
            if !asked.count {
                tell_term(pushed.nodes.as_slice(), n, 20, told);
            }
        }
        Err(fault) => tell_fault(fault, told),
    }
}

fn tell_value(lowering: &Lowering<'_, '_>, value: &Expr, asked: &Asked<'_>, told: &mut Told) {
    match asked.target {
        Some(target) => tell_assignment(lowering, target, value, asked.count, told),
        None => tell_expression(lowering, value, asked, told),
    }
}

/// What an expression or an assignment becomes.
pub fn tell_lowered(context: &Context<'_>, cells: &[Cell], asked: &Asked<'_>, told: &mut Told) {
    let Some(value) = expression_of(asked.value, told) else {
        return;
    };
    match numbers_of(told.alloc(), context, cells) {
        Ok(numbers) => {
            let lowering = Lowering {
                context: *context,
                numbers: &numbers,
            };
            tell_value(&lowering, &value, asked, told);
        }
        Err(fault) => told.words(&fault),
    }
    drop(value);
}
