//! Which argument of a call a parameter has.
ghost use Rattle.std.specs.Prelude.{◌≡◌, ℕ, List, false, find, bytes_eq, option_map, IfOk, OnOk};
ghost use Rattle.pv_tree.specs.View.{arg_tree, call_tree};
ghost use Rattle.pv_tree.specs.Scopes.{value_key};
ghost use Rattle.pv_names.specs.Callees.{how_tree, param_tree};
ghost use Rattle.pv_names.specs.Entries.{block_of};
ghost use Rattle.pv_names.specs.Firsts.{number_in, or_number};
ghost use Rattle.pv_mean.specs.Calls as calls;
ghost use Rattle.pv_program.specs.Handed.{FindsArguments};

use pv_names::{Entry, Firsts, How, Param, param_for};
use pv_tree::{Arg, CallTree};
use pv_types::Name;
use std::alloc::{AllocError, Global};

/// Whether a name is that of a function's value.
fn is_value_name(name: &Name) -> bool
    ensures { result ≡ bytes_eq name.now.key value_key }
{
    name.key().bytes() == b"ret_val".as_slice()
}

/// Whether a parameter has this name.
fn has_name(param: Param, name: &Name) -> bool
    ensures { result ≡ bytes_eq name.now.key (param_tree param.entry).key }
{
    match param {
        Param::Var(var) => *name == *var.name,
        Param::Value(_) => is_value_name(name),
    }
}

/// Whether an argument is for the parameter of this name.
fn is_for(how: How, callee: &Entry, name: &Name, arg: &Arg) -> bool
    ensures { result
        ≡ calls.is_for (how_tree how) (block_of callee.now) name.now.key (arg_tree arg.now) }
{
    match param_for(how, callee, arg) {
        Some(param) => has_name(param, name),
        None => false,
    }
}

/// The first argument for the parameter of this name.
fn argument_for<'c>(how: How, callee: &Entry, name: &Name, call: &'c CallTree) -> Option<&'c Arg>
    ensures { option_map (λ a. arg_tree a.now) result
        ≡ find (calls.is_for (how_tree how) (block_of callee.now) name.now.key)
        (call_tree call.now).args }
{
    for arg in &call.args {
        if is_for(how, callee, name, arg) {
            return Some(arg);
        }
    }
    None
}

/// Whether a parameter has the name of a function's value.
fn has_value_name(param: Param) -> bool
    ensures { result ≡ bytes_eq value_key (param_tree param.entry).key }
{
    match param {
        Param::Var(var) => b"ret_val".as_slice() == var.name.key().bytes(),
        Param::Value(_) => true,
    }
}

/// Whether an argument is for the parameter with the name of a function's value.
fn is_for_value(how: How, callee: &Entry, arg: &Arg) -> bool
    ensures { result
        ≡ calls.is_for (how_tree how) (block_of callee.now) value_key (arg_tree arg.now) }
{
    match param_for(how, callee, arg) {
        Some(param) => has_value_name(param),
        None => false,
    }
}

/// The first argument for the parameter with the name of a function's value.
pub(crate) fn argument_for_value<'c>(
    how: How,
    callee: &Entry,
    call: &'c CallTree,
) -> Option<&'c Arg>
    ensures { option_map (λ a. arg_tree a.now) result
        ≡ find (calls.is_for (how_tree how) (block_of callee.now) value_key)
        (call_tree call.now).args }
{
    for arg in &call.args {
        if is_for_value(how, callee, arg) {
            return Some(arg);
        }
    }
    None
}

/// Puts the number of an argument for a parameter behind the others; that for a function's value isn't put there.
fn add_number(numbers: &mut Firsts, param: Param, number: usize) -> Result<(), AllocError>
    ensures { OnOk result ((key : List ℕ) → bytes_eq key value_key ≡ false
        → number_in numbers.new key ≡ or_number (number_in numbers.old key)
        (bytes_eq key (param_tree param.entry).key) number) }
{
    match param {
        Param::Var(var) => numbers.push(var.name, number),
        Param::Value(_) => Ok(()),
    }
}

/// Puts the number of an argument behind the others, if it is for a parameter.
fn add_argument(
    numbers: &mut Firsts,
    how: How,
    callee: &Entry,
    arg: &Arg,
    number: usize,
) -> Result<(), AllocError>
    ensures { OnOk result ((key : List ℕ) → bytes_eq key value_key ≡ false
        → number_in numbers.new key ≡ or_number (number_in numbers.old key)
        (calls.is_for (how_tree how) (block_of callee.now) key (arg_tree arg.now)) number) }
{
    match param_for(how, callee, arg) {
        Some(param) => add_number(numbers, param, number),
        None => Ok(()),
    }
}

/// The numbers of a call's arguments by the names of the parameters that they are for.
pub(crate) fn arguments_of(
    alloc: Global,
    how: How,
    callee: &Entry,
    call: &CallTree,
) -> Result<Firsts, AllocError>
    ensures { IfOk result (FindsArguments (how_tree how) (block_of callee.now)
        (call_tree call.now).args) }
{
    let mut numbers = Firsts::new(alloc);
    let args = call.args.as_slice();
    for (i, arg) in args.iter().enumerate() {
        add_argument(&mut numbers, how, callee, arg, i)?;
    }
    Ok(numbers)
}

/// The first argument for the parameter of this name, by the numbers of all.
pub(crate) fn named_argument<'c>(
    numbers: &Firsts,
    how: How,
    callee: &Entry,
    name: &Name,
    call: &'c CallTree,
) -> Option<&'c Arg>
    requires { FindsArguments (how_tree how) (block_of callee.now) (call_tree call.now).args
        numbers.now }
    ensures { option_map (λ a. arg_tree a.now) result
        ≡ find (calls.is_for (how_tree how) (block_of callee.now) name.now.key)
        (call_tree call.now).args }
{
    if is_value_name(name) {
        return argument_for(how, callee, name, call);
    }
    match numbers.find(name) {
        Some(number) => call.args.as_slice().get(number),
        None => None,
    }
}
