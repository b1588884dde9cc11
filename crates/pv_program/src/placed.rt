//! Calls as STL makes them: whatever traps in an argument traps at the call's word, so a copy of the call has that place in all
//! parts of its arguments at which something may trap. Words that can't keep their own.
//!
//! The copy goes as deep as expressions stand inside each other.
ghost use Rattle.std.specs.Prelude.{◌≡◌, map, IfOk, Ok, Err};
ghost use Rattle.pv_tree.specs.View.{expr_tree, exprs_of, operand_tree, step_tree, steps_of, arg_tree, call_tree};
ghost use Rattle.pv_mean.specs.Placed.{placed, all_placed, placed_operand, step_placed, steps_placed, arg_placed, call_placed};

use pv_place::Place;
use pv_tree::{Arg, CallTree, Expr, Operand, Root, Step};
use pv_types::Name;
use std::alloc::{AllocError, Global};

/// The value beside what the result holds; where it holds none, the value is let go.
fn with<A: Drop, B, E>(first: A, second: Result<B, E>) -> Result<(A, B), E>
    ensures ok { (b : _) → second ≡ Ok b → result ≡ Ok (first, b) }
    ensures err { (e : _) → second ≡ Err e → result ≡ Err e }
{
    match second {
        Ok(second) => Ok((first, second)),
        Err(stop) => Err(stop),
    }
}

fn copy_name(name: &Option<(Name, Place)>) -> Result<Option<(Name, Place)>, AllocError>
    ensures { IfOk result (λ copy. copy ≡ name.now) }
{
    match name {
        Some((name, place)) => Ok(Some((name.clone()?, *place))),
        None => Ok(None),
    }
}

fn copy_root(root: &Root) -> Result<Root, AllocError>
    ensures { IfOk result (λ copy. copy ≡ root.now) }
{
    match root {
        Root::Local { name, hash, place } => Ok(Root::Local {
            name: name.clone()?,
            hash: *hash,
            place: *place,
        }),
        Root::Named(name) => Ok(Root::Named(name.clone()?)),
        Root::Area {
            area,
            bits,
            byte,
            bit,
        } => Ok(Root::Area {
            area: *area,
            bits: *bits,
            byte: *byte,
            bit: *bit,
        }),
    }
}

/// The expression, with one place for all of its parts.
#[cycle(placed)]
fn placed(alloc: Global, at: Place, e: &Expr) -> Result<Expr, AllocError>
    ensures { IfOk result (λ copy. expr_tree copy ≡ placed at (expr_tree e.now)) }
{
    match e {
        Expr::Lit { ty, value, .. } => Ok(Expr::Lit {
            ty: *ty,
            value: *value,
            place: at,
        }),
        Expr::Read(operand) => Ok(Expr::Read(placed_operand(alloc, at, operand)?)),
        Expr::Unary { op, arg, .. } => Ok(Expr::Unary {
            op: *op,
            place: at,
            arg: Box::new(alloc, placed(alloc, at, arg)?)?,
        }),
        Expr::Binary {
            op,
            left,
            right,
            ..
        } => {
            let left = Box::new(alloc, placed(alloc, at, left)?)?;
            let (left, right) = with(left, placed(alloc, at, right))?;
            let (left, right) = with(left, Box::new(alloc, right))?;
            Ok(Expr::Binary {
                op: *op,
                place: at,
                left,
                right,
            })
        }
        Expr::Std { function, args, .. } => Ok(Expr::Std {
            function: *function,
            place: at,
            args: all_placed(alloc, at, args)?,
        }),
        Expr::Paren(_, inner) => Ok(Expr::Paren(at, Box::new(alloc, placed(alloc, at, inner)?)?)),
    }
}

#[cycle(placed)]
fn all_placed(alloc: Global, at: Place, all: &Vec<Expr>) -> Result<Vec<Expr>, AllocError>
    ensures { IfOk result (λ copies. exprs_of (map (λ e. expr_tree e) copies.items)
        ≡ all_placed at (exprs_of (map (λ e. expr_tree e) all.now.items))) }
{
    let mut copies = Vec::with_capacity(alloc, all.len())?;
    for e in all {
        copies.push(placed(alloc, at, e)?)?;
    }
    Ok(copies)
}

#[cycle(placed)]
fn placed_operand(alloc: Global, at: Place, operand: &Operand) -> Result<Operand, AllocError>
    ensures { IfOk result
        (λ copy. operand_tree copy ≡ placed_operand at (operand_tree operand.now)) }
{
    let root = Box::new(alloc, copy_root(&operand.root)?)?;
    let steps = steps_placed(alloc, at, &operand.steps)?;
    Ok(Operand {
        root,
        steps,
        place: at,
    })
}

#[cycle(placed)]
fn steps_placed(alloc: Global, at: Place, steps: &Vec<Step>) -> Result<Vec<Step>, AllocError>
    ensures { IfOk result (λ copies. steps_of (map (λ s. step_tree s) copies.items)
        ≡ steps_placed at (steps_of (map (λ s. step_tree s) steps.now.items))) }
{
    let mut copies = Vec::with_capacity(alloc, steps.len())?;
    for step in steps {
        copies.push(step_placed(alloc, at, step)?)?;
    }
    Ok(copies)
}

#[cycle(placed)]
fn step_placed(alloc: Global, at: Place, step: &Step) -> Result<Step, AllocError>
    ensures { IfOk result (λ copy. step_tree copy ≡ step_placed at (step_tree step.now)) }
{
    match step {
        Step::Field(name, _) => Ok(Step::Field(name.clone()?, at)),
        Step::Index(e, _) => Ok(Step::Index(Box::new(alloc, placed(alloc, at, e)?)?, at)),
    }
}

fn arg_placed(alloc: Global, at: Place, arg: &Arg) -> Result<Arg, AllocError>
    ensures { IfOk result (λ copy. arg_tree copy ≡ arg_placed at (arg_tree arg.now)) }
{
    let name = copy_name(&arg.name)?;
    let (name, value) = with(name, placed(alloc, at, &arg.value))?;
    Ok(Arg {
        name,
        value,
        place: arg.place,
    })
}

fn args_placed(alloc: Global, at: Place, args: &Vec<Arg>) -> Result<Vec<Arg>, AllocError>
    ensures { IfOk result (λ copies. map (λ a. arg_tree a) copies.items
        ≡ map (arg_placed at) (map (λ a. arg_tree a) args.now.items)) }
{
    let mut copies = Vec::with_capacity(alloc, args.len())?;
    for arg in args {
        copies.push(arg_placed(alloc, at, arg)?)?;
    }
    Ok(copies)
}

/// The call, with its own place in all parts of its arguments.
pub(crate) fn call_placed(alloc: Global, call: &CallTree) -> Result<CallTree, AllocError>
    ensures { IfOk result (λ copy. call_tree copy ≡ call_placed (call_tree call.now)) }
{
    let name = call.name.clone()?;
    let base = copy_name(&call.base)?;
    let args = args_placed(alloc, call.place, &call.args)?;
    Ok(CallTree {
        name,
        name_place: call.name_place,
        hash: call.hash,
        base,
        args,
        place: call.place,
    })
}
