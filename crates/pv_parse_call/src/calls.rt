//! What alternatives of calls make of what lies on the stack.
ghost use Rattle.std.specs.Prelude.{◌≡◌, ◌∷◌, ◌++◌, true, Some, IfOk, map, option_and_then};
ghost use Rattle.pv_tree.specs.declared.expr.Root.TheVariants.{Local};
ghost use Rattle.pv_tree.specs.Tree.{field};
ghost use Rattle.pv_tree.specs.Nesting.{first_of};
ghost use Rattle.pv_tree.specs.View.{expr_tree, step_tree, arg_tree, call_tree};
ghost use Rattle.pv_parse.specs.CodeItems.{arg_list};
ghost use Rattle.pv_parse.specs.Items.{stack_of, path, path_tree, token_on, path_on, Leaves, Pops};
ghost use Rattle.pv_parse.specs.ExprDeeds.{rooted, stepped};
ghost use Rattle.pv_parse.specs.CallDeeds.{name_of_root, named_of, is_hashed, field_of, base_of, plain_on, quoted_on, pair_on, hashed_name, second_name, named_on, first_argument_deed, next_argument_deed, no_argument_deed, alone_deed, call_of, call_deed, call_value_deed, expr_value_deed, call_action_deed};

use crate::parts::{pop_args, pop_call};
use pv_parse::{
    CallAction, CodeItem, Item, Stop, Value, added, joined_name, pop_boxed, pop_expr, pop_path,
    pop_token, push, push_root, push_step, with,
};
use pv_place::Place;
use pv_tree::{Arg, CallTree, Expr, Operand, Root, Step};
use pv_types::Name;
use std::alloc::{AllocError, Global};

/// The name of a word.
fn pop_plain(alloc: Global, stack: &mut Vec<Item>) -> Result<(Name, Place), Stop>
    ensures { Pops (λ name. name) result (stack_of stack.new) (plain_on (stack_of stack.old)) }
{
    let token = pop_token(stack)?;
    let name = Name::plain(alloc, token.bytes)?;
    Ok((name, token.place))
}

/// The name in quotes.
fn pop_quoted(alloc: Global, stack: &mut Vec<Item>) -> Result<(Name, Place), Stop>
    ensures { Pops (λ name. name) result (stack_of stack.new) (quoted_on (stack_of stack.old)) }
{
    let token = pop_token(stack)?;
    let name = Name::quoted(alloc, token.bytes)?;
    Ok((name, token.place))
}

/// The name of a word with its number.
fn pop_pair(alloc: Global, stack: &mut Vec<Item>) -> Result<(Name, Place), Stop>
    ensures { Pops (λ name. name) result (stack_of stack.new) (pair_on (stack_of stack.old)) }
{
    let number = pop_token(stack)?;
    let prefix = pop_token(stack)?;
    let name = joined_name(alloc, prefix.bytes, number.bytes)?;
    Ok((name, prefix.place))
}

/// A name behind `#`, which lies on the stack, is a path.
fn push_hashed(alloc: Global, name: Name, at: Place, stack: &mut Vec<Item>) -> Result<(), Stop>
    ensures { Leaves result (stack_of stack.new) (option_and_then (λ hash. Some
        (path (rooted (Local name true at) hash.0.place) ∷ hash.1)) (token_on (stack_of stack.old))) }
{
    let (name, hash) = with(name, pop_token(stack))?;
    let root = Root::Local {
        name,
        hash: true,
        place: at,
    };
    push_root(alloc, root, hash.place, stack)
}

/// A name behind `.`, which lies on the stack, is a step to a field.
fn push_second(name: Name, at: Place, stack: &mut Vec<Item>) -> Result<(), Stop>
    ensures { Leaves result (stack_of stack.new) (option_and_then (λ dot. option_and_then (λ p. Some
        (path (stepped p.0 (field name at)) ∷ p.1)) (path_on dot.1)) (token_on (stack_of stack.old))) }
{
    let (name, _dot) = with(name, pop_token(stack))?;
    let (name, path) = with(name, pop_path(stack))?;
    push_step(path, Step::Field(name, at), stack)
}

/// A word behind `#`.
fn plain_hash(alloc: Global, stack: &mut Vec<Item>) -> Result<(), Stop>
    ensures { Leaves result (stack_of stack.new) (hashed_name (plain_on (stack_of stack.old))) }
{
    let (name, at) = pop_plain(alloc, stack)?;
    push_hashed(alloc, name, at, stack)
}

/// A quoted name behind `#`.
fn quoted_hash(alloc: Global, stack: &mut Vec<Item>) -> Result<(), Stop>
    ensures { Leaves result (stack_of stack.new) (hashed_name (quoted_on (stack_of stack.old))) }
{
    let (name, at) = pop_quoted(alloc, stack)?;
    push_hashed(alloc, name, at, stack)
}

/// A word with its number behind `#`.
fn numbered_hash(alloc: Global, stack: &mut Vec<Item>) -> Result<(), Stop>
    ensures { Leaves result (stack_of stack.new) (hashed_name (pair_on (stack_of stack.old))) }
{
    let (name, at) = pop_pair(alloc, stack)?;
    push_hashed(alloc, name, at, stack)
}

/// A word behind `.`.
fn plain_second(alloc: Global, stack: &mut Vec<Item>) -> Result<(), Stop>
    ensures { Leaves result (stack_of stack.new) (second_name (plain_on (stack_of stack.old))) }
{
    let (name, at) = pop_plain(alloc, stack)?;
    push_second(name, at, stack)
}

/// A quoted name behind `.`.
fn quoted_second(alloc: Global, stack: &mut Vec<Item>) -> Result<(), Stop>
    ensures { Leaves result (stack_of stack.new) (second_name (quoted_on (stack_of stack.old))) }
{
    let (name, at) = pop_quoted(alloc, stack)?;
    push_second(name, at, stack)
}

/// A word with its number behind `.`.
fn numbered_second(alloc: Global, stack: &mut Vec<Item>) -> Result<(), Stop>
    ensures { Leaves result (stack_of stack.new) (second_name (pair_on (stack_of stack.old))) }
{
    let (name, at) = pop_pair(alloc, stack)?;
    push_second(name, at, stack)
}

/// The name with which a path begins, with its own place; an address has none, and never stands for one.
fn root_name(alloc: Global, root: Root, place: Place) -> Result<(Name, Place), AllocError>
    ensures { IfOk result (λ name. name ≡ name_of_root root place) }
{
    match root {
        Root::Local {
            name,
            place: at,
            ..
        } => Ok((name, at)),
        Root::Named(name) => Ok((name, place)),
        Root::Area { .. } => {
            let name = Name::plain(alloc, b"")?;
            Ok((name, place))
        }
    }
}

/// The same of the whole path.
pub fn path_name(alloc: Global, path: Operand) -> Result<(Name, Place), AllocError>
    ensures { IfOk result (λ name. name ≡ named_of (path_tree path)) }
{
    drop(path.steps);
    root_name(alloc, Box::into_inner(path.root), path.place)
}

/// Whether `#` stands before it.
fn hash_of(root: &Root) -> bool
    ensures { result ≡ is_hashed root.now }
{
    match root {
        Root::Local { hash, .. } => *hash,
        _ => false,
    }
}

/// The name of the field to which a step leads.
fn field_name(step: Step) -> Option<(Name, Place)>
    ensures { result ≡ field_of (step_tree step) }
{
    match step {
        Step::Field(name, place) => Some((name, place)),
        Step::Index(..) => None,
    }
}

/// The name to which the last step leads, where it leads to a field.
fn last_name(steps: Vec<Step>) -> Option<(Name, Place)>
    ensures { result ≡ base_of (map step_tree steps.items) }
{
    let mut steps = steps;
    match steps.pop() {
        Some(step) => field_name(step),
        None => None,
    }
}

/// An argument with its word.
fn pop_named(alloc: Global, stack: &mut Vec<Item>) -> Result<Arg, Stop>
    ensures { Pops arg_tree result (stack_of stack.new) (named_on (stack_of stack.old)) }
{
    let value = pop_expr(stack)?;
    let (value, sign) = with(value, pop_token(stack))?;
    let (value, word) = with(value, pop_path(stack))?;
    let (value, name) = with(value, path_name(alloc, word))?;
    Ok(Arg {
        name: Some(name),
        value,
        place: sign.place,
    })
}

/// The first argument with a word.
fn first_argument(alloc: Global, stack: &mut Vec<Item>) -> Result<(), Stop>
    ensures { Leaves result (stack_of stack.new) (first_argument_deed (stack_of stack.old)) }
{
    let arg = pop_named(alloc, stack)?;
    let args = vec![in alloc; arg]?;
    push(stack, Item::Code(CodeItem::Args(args)))?;
    Ok(())
}

/// A further one, behind its comma.
fn next_argument(alloc: Global, stack: &mut Vec<Item>) -> Result<(), Stop>
    ensures { Leaves result (stack_of stack.new) (next_argument_deed (stack_of stack.old)) }
{
    let arg = pop_named(alloc, stack)?;
    let (arg, _comma) = with(arg, pop_token(stack))?;
    let (arg, args) = with(arg, pop_args(stack))?;
    let args = added(args, arg)?;
    push(stack, Item::Code(CodeItem::Args(args)))?;
    Ok(())
}

/// No argument.
fn no_argument(alloc: Global, stack: &mut Vec<Item>) -> Result<(), Stop>
    ensures { Leaves result (stack_of stack.new) (no_argument_deed (stack_of stack.old)) }
{
    push(stack, Item::Code(CodeItem::Args(Vec::new(alloc))))?;
    Ok(())
}

/// The place of an expression's first token.
fn first_place(expr: &Expr) -> Place
    ensures { result ≡ first_of (expr_tree expr.now) }
{
    match expr {
        Expr::Lit { place, .. } => *place,
        Expr::Read(operand) => operand.place,
        Expr::Unary { place, .. } => *place,
        Expr::Binary { left, .. } => first_place(left),
        Expr::Std { place, .. } => *place,
        Expr::Paren(place, _) => *place,
    }
}

/// An argument without a word, alone.
fn alone(alloc: Global, stack: &mut Vec<Item>) -> Result<(), Stop>
    ensures { Leaves result (stack_of stack.new) (alone_deed (stack_of stack.old)) }
{
    let value = pop_expr(stack)?;
    let place = first_place(&value);
    let args = vec![in alloc;
        Arg {
            name: None,
            value,
            place
        },
    ]?;
    push(stack, Item::Code(CodeItem::Args(args)))?;
    Ok(())
}

/// What a path leads to, called with these arguments.
fn called(alloc: Global, path: Operand, args: Vec<Arg>) -> Result<CallTree, AllocError>
    ensures { IfOk result (λ call. call_tree call ≡ call_of (path_tree path) (arg_list args)) }
{
    let place = path.place;
    let hash = hash_of(&path.root);
    let name = root_name(alloc, Box::into_inner(path.root), place);
    let base = last_name(path.steps);
    let (rest, (name, name_place)) = with((base, args), name)?;
    let (base, args) = rest;
    Ok(CallTree {
        name,
        name_place,
        hash,
        base,
        args,
        place,
    })
}

/// What a path leads to is called.
fn call(alloc: Global, stack: &mut Vec<Item>) -> Result<(), Stop>
    ensures { Leaves result (stack_of stack.new) (call_deed (stack_of stack.old)) }
{
    let _end = pop_token(stack)?;
    let args = pop_args(stack)?;
    let (args, _begin) = with(args, pop_token(stack))?;
    let (args, path) = with(args, pop_path(stack))?;
    let call = called(alloc, path, args)?;
    let call = Box::new(alloc, call)?;
    push(stack, Item::Code(CodeItem::Call(call)))?;
    Ok(())
}

/// The right side of an assignment is a call.
fn call_value(stack: &mut Vec<Item>) -> Result<(), Stop>
    ensures { Leaves result (stack_of stack.new) (call_value_deed (stack_of stack.old)) }
{
    let call = pop_call(stack)?;
    push(stack, Item::Code(CodeItem::Value(Value::Call(call))))?;
    Ok(())
}

/// The right side of an assignment is an expression.
fn expr_value(alloc: Global, stack: &mut Vec<Item>) -> Result<(), Stop>
    ensures { Leaves result (stack_of stack.new) (expr_value_deed (stack_of stack.old)) }
{
    let expr = pop_boxed(alloc, stack)?;
    push(stack, Item::Code(CodeItem::Value(Value::Expr(expr))))?;
    Ok(())
}

/// What an alternative of calls does.
pub fn act_on_call(alloc: Global, action: CallAction, stack: &mut Vec<Item>) -> Result<(), Stop>
    ensures { Leaves result (stack_of stack.new) (call_action_deed action (stack_of stack.old)) }
{
    match action {
        CallAction::PlainHash => plain_hash(alloc, stack),
        CallAction::QuotedHash => quoted_hash(alloc, stack),
        CallAction::NumberedHash => numbered_hash(alloc, stack),
        CallAction::PlainSecond => plain_second(alloc, stack),
        CallAction::QuotedSecond => quoted_second(alloc, stack),
        CallAction::NumberedSecond => numbered_second(alloc, stack),
        CallAction::FirstArgument => first_argument(alloc, stack),
        CallAction::NextArgument => next_argument(alloc, stack),
        CallAction::NoArgument => no_argument(alloc, stack),
        CallAction::Alone => alone(alloc, stack),
        CallAction::Call => call(alloc, stack),
        CallAction::CallValue => call_value(stack),
        CallAction::ExprValue => expr_value(alloc, stack),
    }
}
