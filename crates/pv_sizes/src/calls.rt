//! The sizes of calls: what is copied in and out, and the call edge.
ghost use Rattle.std.specs.Prelude.{◌≡◌, map};
ghost use Rattle.pv_tree.specs.View.{arg_tree, call_tree, expr_tree};
ghost use Rattle.pv_tree.specs.Parts.{site};
ghost use Rattle.pv_names.specs.Entries.{block_of};
ghost use Rattle.pv_names.specs.InScope.{scope_of};
ghost use Rattle.pv_names.specs.Callees.{how_tree};
ghost use Rattle.pv_sizes.specs.Counts.{capped};
ghost use Rattle.pv_sizes.specs.Sizes as sizes;

use crate::checks::{expr_size, target_size};
use crate::count::{one_if, sum};
use pv_names::{Callee, Entry, How, Scope, is_fc, param_for, section_of_param};
use pv_tree::{Arg, CallTree, Expr};
use pv_types::Section;

/// How many checks handing a value over to this argument makes.
fn taker_size(scope: &Scope, e: &Expr) -> u64
    ensures { result ≡ capped (sizes.checks_of_taker (scope_of scope.now) (expr_tree e.now)) }
{
    match e {
        Expr::Read(operand) => target_size(scope, operand),
        Expr::Lit { .. } => 0,
        Expr::Unary { .. } => 0,
        Expr::Binary { .. } => 0,
        Expr::Std { .. } => 0,
        Expr::Paren(..) => 0,
    }
}

/// The size of what is copied in and out of a parameter of this section.
fn copy_size(scope: &Scope, callee: &Entry, value: &Expr, section: Section) -> u64
    ensures { result ≡ capped (sizes.size_of_copy (scope_of scope.now) (block_of callee.now)
        (expr_tree value.now) section) }
{
    match section {
        Section::Input => sum(expr_size(scope, value), 1),
        Section::Output => {
            let out = sum(taker_size(scope, value), 1);
            sum(out, one_if(is_fc(&callee.block.kind)))
        }
        Section::InOut => {
            let into = sum(expr_size(scope, value), 1);
            sum(sum(into, taker_size(scope, value)), 1)
        }
        Section::Static => 0,
        Section::Temp => 0,
        Section::Const => 0,
    }
}

/// The size of what is copied for an argument.
fn arg_size(scope: &Scope, how: How, callee: &Entry, arg: &Arg) -> u64
    ensures { result ≡ capped (sizes.size_of_arg (scope_of scope.now) (how_tree how)
        (block_of callee.now) (arg_tree arg.now)) }
{
    match param_for(how, callee, arg) {
        Some(param) => copy_size(scope, callee, &arg.value, section_of_param(param)),
        None => 0,
    }
}

/// The size of what is copied for arguments.
fn args_size(scope: &Scope, how: How, callee: &Entry, args: &[Arg]) -> u64
    ensures { result ≡ capped (sizes.size_of_args (scope_of scope.now) (how_tree how)
        (block_of callee.now) (map arg_tree args.now)) }
{
    let mut total = 0;
    for arg in args {
        total = sum(total, arg_size(scope, how, callee, arg));
    }
    total
}

/// The size of a call.
pub(crate) fn call_size(scope: &Scope, how: How, call: &CallTree) -> u64
    ensures { result ≡ capped (sizes.size_of_call (scope_of scope.now)
        (site (how_tree how) (call_tree call.now))) }
{
    match scope.callee_of(how, call) {
        Callee::Runs(entry) => sum(args_size(scope, how, entry, call.args.as_slice()), 1),
        Callee::NotDeclared(_) => 1,
        Callee::NotCallable(_) => 1,
        Callee::Unknown => 1,
    }
}
