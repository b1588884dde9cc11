//! Arguments of calls, each by itself.
ghost use Rattle.std.specs.Prelude.{◌≡◌, OnOk, flat_map, map, option_map};
ghost use Rattle.pv_tree.specs.Callees as callees;
ghost use Rattle.pv_tree.specs.Parts as parts;
ghost use Rattle.pv_tree.specs.Rules.Arguments.{place_of_word};
ghost use Rattle.pv_tree.specs.Rules.Targets as targets;
ghost use Rattle.pv_tree.specs.Rules.Loops.{counts};
ghost use Rattle.pv_tree.specs.View.{arg_tree, expr_tree, operand_tree};
ghost use Rattle.pv_names.specs.InScope.{scope_of};
ghost use Rattle.pv_names.specs.Callees.{how_tree, callee_tree, param_tree};
ghost use Rattle.pv_names.specs.Sorts.{want_tree};
ghost use Rattle.pv_rules_code.specs.AtCalls.{param_in, arg_parts, unknown_in, output_at, counter_at, arg_place};
ghost use Rattle.pv_rules_code.specs.Counted.{is_counted, is_counted_operand, is_counted_value};
ghost use Rattle.pv_rules_code.specs.Nears.{HasParts, HasPasses, HasPassesIn};
ghost use Rattle.pv_rules_code.specs.Spots.{loop_tree};

use crate::around::Loop;
use crate::fit::{misfits_param, want_of_type};
use crate::near::PassNear;
use crate::target::is_fixed;
use pv_names::{
    Callee, How, Param, Scope, Want, first_place, param_for, section_of_param, type_of_param,
};
use pv_place::Place;
use pv_rules_expr::{Near, look_for_all, nearer_of, operand_of, where_is};
use pv_tree::{Arg, Expr, Operand, Root};
use pv_types::{Name, Section};
use std::alloc::{AllocError, Global};

/// The parameter that an argument is for, by what its call comes to.
pub fn param_in<'p>(callee: Callee<'p>, how: How, arg: &Arg) -> Option<Param<'p>>
    ensures { option_map param_tree result
        ≡ param_in (callee_tree callee.entry) (how_tree how) (arg_tree arg.now) }
{
    match callee {
        Callee::Runs(entry) => param_for(how, entry, arg),
        Callee::NotDeclared(_) => None,
        Callee::NotCallable(_) => None,
        Callee::Unknown => None,
    }
}

/// The place of an argument's word, or of its first token where it has none.
fn place_of_word(arg: &Arg) -> Place
    ensures { result ≡ place_of_word (arg_tree arg.now) }
{
    match &arg.name {
        Some((_, place)) => *place,
        None => first_place(&arg.value),
    }
}

/// The place of an argument that is for no parameter of this block.
fn unknown_place<'p>(callee: Callee<'p>, how: How, arg: &Arg) -> Option<Place>
    ensures { result ≡ unknown_in (callee_tree callee.entry) (how_tree how) (arg_tree arg.now) }
{
    match callee {
        Callee::Runs(entry) => match param_for(how, entry, arg) {
            Some(_) => None,
            None => Some(place_of_word(arg)),
        },
        Callee::NotDeclared(_) => None,
        Callee::NotCallable(_) => None,
        Callee::Unknown => None,
    }
}

/// Whether a parameter's value goes back to its argument.
fn goes_out(section: Section) -> bool
    ensures { result ≡ targets.goes_out section }
{
    match section {
        Section::Output | Section::InOut => true,
        Section::Input | Section::Static | Section::Temp | Section::Const => false,
    }
}

/// Whether the value of the parameter, if there is one, goes back to its argument.
fn goes_out_where(param: Option<Param>) -> bool
    ensures { result ≡ targets.goes_out_where (option_map param_tree param.entry) }
{
    match param {
        Some(param) => goes_out(section_of_param(param)),
        None => false,
    }
}

/// Whether a loop is a FOR of the variable of this name.
fn counts(around: Loop, name: &Name) -> bool
    ensures { result ≡ counts name.now.key (loop_tree around.entry) }
{
    match around {
        Loop::For(var) => name.key() == var.key(),
        Loop::Other => false,
    }
}

/// Whether a FOR around a statement counts the variable of this name.
pub(crate) fn is_counted(loops: &[Loop], name: &Name) -> bool
    ensures { result ≡ is_counted (map loop_tree loops.now) name.now.key }
{
    for around in loops {
        if counts(*around, name) {
            return true;
        }
    }
    false
}

/// Whether an operand is the variable of a FOR around a statement.
pub(crate) fn is_counted_operand(loops: &[Loop], operand: &Operand) -> bool
    ensures { result ≡ is_counted_operand (map loop_tree loops.now) (operand_tree operand.now) }
{
    match &*operand.root {
        Root::Local { name, .. } => match operand.steps.as_slice().split_first() {
            Some(_) => false,
            None => is_counted(loops, name),
        },
        Root::Named(_) => false,
        Root::Area { .. } => false,
    }
}

/// Whether an expression is the variable of a FOR around a statement.
fn is_counted_value(loops: &[Loop], e: &Expr) -> bool
    ensures { result ≡ is_counted_value (map loop_tree loops.now) (expr_tree e.now) }
{
    match operand_of(e) {
        Some(operand) => is_counted_operand(loops, operand),
        None => false,
    }
}

/// The place of an argument that the called block writes, and that a FOR around the call counts.
fn counter_place(loops: &[Loop], param: Option<Param>, arg: &Arg) -> Option<Place>
    ensures { result ≡ counter_at (map loop_tree loops.now) (option_map param_tree param.entry)
        (arg_tree arg.now) }
{
    if goes_out_where(param) && is_counted_value(loops, &arg.value) {
        Some(first_place(&arg.value))
    } else {
        None
    }
}

/// Whether nothing can be assigned to an expression.
fn isnt_assignable(scope: &Scope, e: &Expr) -> bool
    ensures { result ≡ targets.isnt_assignable (scope_of scope.now)
        (parts.operand_of (expr_tree e.now)) }
{
    match operand_of(e) {
        Some(operand) => is_fixed(scope.thing_of(operand)),
        None => true,
    }
}

/// The place of an argument for an output or a VAR_IN_OUT that can't be assigned.
fn output_place(scope: &Scope, param: Option<Param>, arg: &Arg) -> Option<Place>
    ensures { result ≡ output_at (scope_of scope.now) (option_map param_tree param.entry)
        (arg_tree arg.now) }
{
    if goes_out_where(param) && isnt_assignable(scope, &arg.value) {
        Some(first_place(&arg.value))
    } else {
        None
    }
}

/// What is wanted of an argument for this parameter.
fn want_of_param(param: Option<Param>) -> Want
    ensures { want_tree result ≡ callees.want_of_param (option_map param_tree param.entry) }
{
    match param {
        Some(param) => want_of_type(type_of_param(param)),
        None => Want::Unsure,
    }
}

/// The nearest places, with those of an argument.
pub(crate) fn add_arg<'p>(
    scope: &Scope<'p>,
    alloc: Global,
    loops: &[Loop],
    callee: Callee<'p>,
    how: How,
    arg: &Arg,
    near: &mut Near,
    passes: &mut PassNear,
) -> Result<(), AllocError>
    ensures parts { OnOk result (HasParts (scope_of scope.now) (arg_parts (scope_of scope.now)
        (callee_tree callee.entry) (how_tree how) (arg_tree arg.now)) near.old near.new) }
    ensures passes { OnOk result (HasPasses (λ what. arg_place what (scope_of scope.now)
        (map loop_tree loops.now) (callee_tree callee.entry) (how_tree how) (arg_tree arg.now))
        passes.old passes.new) }
{
    let param = param_in(callee, how, arg);
    let sort = look_for_all(scope, alloc, want_of_param(param), &arg.value, near)?;
    let misfit = where_is(misfits_param(scope, param, &arg.value, sort), arg.place);
    passes.misfit = nearer_of(passes.misfit, misfit);
    passes.output = nearer_of(passes.output, output_place(scope, param, arg));
    passes.unknown = nearer_of(passes.unknown, unknown_place(callee, how, arg));
    passes.counter = nearer_of(passes.counter, counter_place(loops, param, arg));
    Ok(())
}

/// The nearest places, with those of arguments.
pub(crate) fn add_args<'p>(
    scope: &Scope<'p>,
    alloc: Global,
    loops: &[Loop],
    callee: Callee<'p>,
    how: How,
    args: &[Arg],
    near: &mut Near,
    passes: &mut PassNear,
) -> Result<(), AllocError>
    ensures parts { OnOk result (HasParts (scope_of scope.now) (flat_map (arg_parts
        (scope_of scope.now) (callee_tree callee.entry) (how_tree how)) (map arg_tree args.now))
        near.old near.new) }
    ensures passes { OnOk result (HasPassesIn (λ what. arg_place what (scope_of scope.now)
        (map loop_tree loops.now) (callee_tree callee.entry) (how_tree how))
        (map arg_tree args.now) passes.old passes.new) }
{
    for arg in args {
        add_arg(scope, alloc, loops, callee, how, arg, near, passes)?;
    }
    Ok(())
}
