//! Which parameters the arguments of a call give, and which words stand twice. Names are met in a table.
ghost use Rattle.std.specs.Prelude.{◌≡◌, ◌||◌, ◌++◌, ℕ, List, IfOk, OnOk, bytes_eq, map, option_and_then, option_to_list};
ghost use Rattle.std.specs.List.{list_any};
ghost use Rattle.pv_types.specs.View.{var_tree};
ghost use Rattle.pv_tree.specs.Callees as callees;
ghost use Rattle.pv_tree.specs.Parts.{site};
ghost use Rattle.pv_tree.specs.Tree.{PlacedName};
ghost use Rattle.pv_tree.specs.View.{arg_tree, call_tree};
ghost use Rattle.pv_names.specs.Entries.{block_of};
ghost use Rattle.pv_names.specs.Callees.{how_tree, callee_tree};
ghost use Rattle.pv_rules_code.specs.AtGiven.{is_in, HasMet, keys_of, later_from, gives, is_given, is_out, lacks_some, lacking_at, later_word, later_at};

use pv_names::{Callee, Entry, Firsts, How, named_param, only_var};
use pv_place::Place;
use pv_rules_expr::{nearer_of, where_is};
use pv_tree::{Arg, CallTree};
use pv_types::{Name, Var};
use std::alloc::{AllocError, Global};

/// Whether a name was put into the table.
fn has(table: &Firsts, name: &Name) -> bool
    ensures { result ≡ is_in table.now name.now.key }
{
    match table.find(name) {
        Some(_) => true,
        None => false,
    }
}

/// Puts a name into the table.
fn meet(table: &mut Firsts, name: &Name) -> Result<(), AllocError>
    ensures { OnOk result ((key : List ℕ) → is_in table.new key
        ≡ (is_in table.old key || bytes_eq key name.now.key)) }
{
    table.push(name, 0)
}

/// Meets the word of an argument, and gives the nearest word that was met twice.
fn meet_word(
    table: &mut Firsts,
    arg: &Arg,
    nearest: Option<Place>,
) -> Result<Option<Place>, AllocError>
    ensures near { (words : List PlacedName) → HasMet table.old words → IfOk result (λ o. o
        ≡ later_from (keys_of words) (option_to_list arg.now.name) nearest) }
    ensures met { (words : List PlacedName) → HasMet table.old words → OnOk result
        (HasMet table.new (words ++ option_to_list arg.now.name)) }
{
    match &arg.name {
        Some((name, place)) => {
            let found = where_is(has(table, name), *place);
            meet(table, name)?;
            Ok(nearer_of(nearest, found))
        }
        None => Ok(nearest),
    }
}

/// Meets the name of the parameter that an argument gives.
fn meet_param<'p>(
    table: &mut Firsts,
    how: How,
    entry: &'p Entry<'p>,
    arg: &Arg,
) -> Result<(), AllocError>
    ensures { let p = callees.param_for (how_tree how) (block_of entry.now) (arg_tree arg.now) in
        OnOk result ((key : List ℕ) → is_in table.new key ≡ (is_in table.old key || gives key p)) }
{
    match &arg.name {
        Some((name, _)) => match named_param(how, entry, name) {
            Some(_) => meet(table, name),
            None => Ok(()),
        },
        None => match only_var(entry) {
            Some(var) => meet(table, var.name),
            None => Ok(()),
        },
    }
}

/// The names of the parameters that arguments give.
fn given<'p>(
    alloc: Global,
    how: How,
    entry: &'p Entry<'p>,
    args: &[Arg],
) -> Result<Firsts, AllocError>
    ensures { IfOk result (λ f. (key : List ℕ) → is_in f key
        ≡ is_given (how_tree how) (block_of entry.now) (map arg_tree args.now) key) }
{
    let mut names = Firsts::new(alloc);
    for arg in args {
        meet_param(&mut names, how, entry, arg)?;
    }
    Ok(names)
}

/// Whether the name of one of these variables wasn't put into the table.
fn some_out(table: &Firsts, vars: &[Var]) -> bool
    ensures { result ≡ list_any (is_out table.now) (map var_tree vars.now) }
{
    for var in vars {
        if !has(table, var.name) {
            return true;
        }
    }
    false
}

/// Whether a parameter that has to be given isn't.
fn lacks_some<'p>(
    alloc: Global,
    how: How,
    entry: &'p Entry<'p>,
    args: &[Arg],
) -> Result<bool, AllocError>
    ensures { IfOk result (λ b. b
        ≡ lacks_some (how_tree how) (block_of entry.now) (map arg_tree args.now)) }
{
    let names = given(alloc, how, entry, args)?;
    Ok(some_out(&names, entry.needed()))
}

/// The first token of a call that doesn't give all that it has to.
pub(crate) fn lacking_place(
    alloc: Global,
    callee: Callee,
    how: How,
    call: &CallTree,
) -> Result<Option<Place>, AllocError>
    ensures { IfOk result (λ o. o ≡ option_and_then (lacking_at (site (how_tree how) (call_tree call.now)))
        (callees.block_of_callee (callee_tree callee.entry))) }
{
    match callee {
        Callee::Runs(entry) => {
            let lacks = lacks_some(alloc, how, entry, call.args.as_slice())?;
            Ok(where_is(lacks, call.place))
        }
        Callee::NotDeclared(_) => Ok(None),
        Callee::NotCallable(_) => Ok(None),
        Callee::Unknown => Ok(None),
    }
}

/// The nearest word among arguments that stands behind the same word.
fn later_word(alloc: Global, args: &[Arg]) -> Result<Option<Place>, AllocError>
    ensures { IfOk result (λ o. o ≡ later_word (map arg_tree args.now)) }
{
    let mut names = Firsts::new(alloc);
    let mut best = None;
    for arg in args {
        best = meet_word(&mut names, arg, best)?;
    }
    Ok(best)
}

/// The nearest word of a call that stands behind the same word.
pub(crate) fn later_place(
    alloc: Global,
    callee: Callee,
    how: How,
    call: &CallTree,
) -> Result<Option<Place>, AllocError>
    ensures { IfOk result (λ o. o ≡ option_and_then (later_at (site (how_tree how) (call_tree call.now)))
        (callees.block_of_callee (callee_tree callee.entry))) }
{
    match callee {
        Callee::Runs(_) => later_word(alloc, call.args.as_slice()),
        Callee::NotDeclared(_) => Ok(None),
        Callee::NotCallable(_) => Ok(None),
        Callee::Unknown => Ok(None),
    }
}
