//! Which variables of a called block a call has arguments for, by their numbers.
ghost use Rattle.std.specs.Prelude.{◌≡◌, ◌++◌, ◌∷◌, [], ℕ, List, Some, true, bytes_eq, IfOk, IfSome, OnOk};
ghost use Rattle.pv_tree.specs.View.{arg_tree, call_tree};
ghost use Rattle.pv_tree.specs.Tree.{ArgTree};
ghost use Rattle.pv_tree.specs.Callees as callees;
ghost use Rattle.pv_names.specs.Callees.{how_tree};
ghost use Rattle.pv_names.specs.Entries.{block_of};
ghost use Rattle.pv_names.specs.Firsts.{first_number};
ghost use Rattle.pv_names.specs.Unique.{HaveUniqueNames};
ghost use Rattle.pv_mean.specs.Calls as calls;
ghost use Rattle.pv_program.specs.Sought.{keys_of, HaveAll, AreSought};
ghost use Rattle.pv_program.specs.Given.{FindsGiven};

use crate::argument::arguments_of;
use pv_names::{Entry, Firsts, How, only_var};
use pv_tree::{Arg, CallTree};
use std::alloc::{AllocError, Global};

/// What a call's arguments are for.
#[derive(Drop)]
pub(crate) struct Given {
    /// The numbers of the arguments by the names of their parameters.
    pub named: Firsts,
    /// The numbers of the variables that they may be for, in their order, where each variable has its own name.
    pub sought: Option<Vec<usize>>,
}

/// The number of a function's only input.
fn only_number(callee: &Entry) -> Option<usize>
    ensures { (param : callees.Param) (key : List ℕ)
        → callees.only_input (block_of callee.now) ≡ Some param → bytes_eq key param.key ≡ true
        → result ≡ first_number (bytes_eq key) (keys_of (block_of callee.now).vars) }
{
    match only_var(callee) {
        Some(var) => callee.number_of(var.name),
        None => None,
    }
}

/// The number of the first variable that an argument may be for.
pub(crate) fn number_for(callee: &Entry, arg: &Arg) -> Option<usize>
    ensures { (how : callees.How) (key : List ℕ)
        → calls.is_for how (block_of callee.now) key (arg_tree arg.now) ≡ true
        → result ≡ first_number (bytes_eq key) (keys_of (block_of callee.now).vars) }
{
    match &arg.name {
        Some((name, _)) => callee.number_of(name),
        None => only_number(callee),
    }
}

/// Puts the number of the variable that an argument may be for behind the others.
fn add_sought(numbers: &mut Vec<usize>, callee: &Entry, arg: &Arg) -> Result<(), AllocError>
    ensures { OnOk result ((how : callees.How) (args : List ArgTree)
        → HaveUniqueNames (block_of callee.now).vars
        → HaveAll how (block_of callee.now) args 0 numbers.old.items
        → HaveAll how (block_of callee.now) (args ++ arg_tree arg.now ∷ []) 0 numbers.new.items) }
{
    match number_for(callee, arg) {
        Some(number) => {
            numbers.push(number)?;
            Ok(())
        }
        None => Ok(()),
    }
}

/// The numbers of the variables that the arguments of a call may be for, in their order.
fn numbers_of(alloc: Global, callee: &Entry, call: &CallTree) -> Result<Vec<usize>, AllocError>
    ensures { (how : callees.How) → HaveUniqueNames (block_of callee.now).vars
        → IfOk result (λ v. AreSought how (block_of callee.now) (call_tree call.now).args v.items) }
{
    let mut numbers = Vec::new(alloc);
    for arg in &call.args {
        add_sought(&mut numbers, callee, arg)?;
    }
    numbers.sort_unstable();
    Ok(numbers)
}

/// The numbers of the variables that a call's arguments may be for, in their order, where each variable has its own name.
fn sought(alloc: Global, callee: &Entry, call: &CallTree) -> Result<Option<Vec<usize>>, AllocError>
    ensures { (how : callees.How)
        → IfOk result (λ o. IfSome o (λ v. AreSought how (block_of callee.now) (call_tree call.now).args v.items)) }
{
    if !callee.has_unique_names() {
        return Ok(None);
    }
    let numbers = numbers_of(alloc, callee, call)?;
    Ok(Some(numbers))
}

/// What a call's arguments are for.
pub(crate) fn given_of(
    alloc: Global,
    how: How,
    callee: &Entry,
    call: &CallTree,
) -> Result<Given, AllocError>
    ensures { IfOk result (FindsGiven (how_tree how) (block_of callee.now) (call_tree call.now).args) }
{
    let sought = sought(alloc, callee, call)?;
    let named = arguments_of(alloc, how, callee, call)?;
    Ok(Given { named, sought })
}
