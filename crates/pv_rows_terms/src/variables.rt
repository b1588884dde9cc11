//! The variables of a block's automaton, each with its type, its role and its start: `i` for an input, `p` for a parameter, with its value
//! where it is bound, `k` for what is kept and `b` for what is brief.
use crate::reading::type_word;
use pv_flow::Variable;
use pv_mean::Cell;
use pv_place::Role;
use pv_resolve::Context;
use pv_rows_form::Told;
use pv_tree::{Block, Project};
use pv_types::Types;
use pv_variables::{Numbers, named_types, numbers_of, variables_of};

fn letter_of(role: Role) -> &'static str {
    match role {
        Role::Input => " i",
        Role::Param => " p",
        Role::Kept => " k",
        Role::Brief => " b",
    }
}

fn tell_variable(variable: &Variable, told: &mut Told) {
    told.text(type_word(variable.ty));
    told.text(letter_of(variable.role));
    if variable.start != 0 {
        told.text(" ");
        told.number(variable.start);
    }
    if let Some(value) = variable.only {
        told.text("=");
        told.number(value);
    }
}

/// The variables, with commas between them.
fn tell_list(variables: &[Variable], told: &mut Told) {
    let mut between = "";
    for variable in variables {
        told.text(between);
        tell_variable(variable, told);
        between = ", ";
    }
}

/// How many are bound and shared, the numbers of brief cells, and that of the first register.
fn tell_numbers(numbers: &Numbers, told: &mut Told) {
    told.text("; bound ");
    told.number(i128::from(numbers.bound));
    told.text(" shared ");
    told.number(i128::from(numbers.shared));
    told.text(" briefs");
    for n in &numbers.briefs {
        told.text(" ");
        told.number(i128::from(*n));
    }
    told.text(" registers ");
    told.number(i128::from(numbers.registers));
}

/// The variables and their numbers, by the named types.
fn tell_typed(
    types: &Types<'_>,
    context: &Context<'_>,
    entered: &Block,
    cells: &[Cell],
    told: &mut Told,
) {
    match variables_of(told.alloc(), context, types, entered, cells) {
        Ok(variables) => tell_list(variables.as_slice(), told),
        Err(fault) => told.words(&fault),
    }
    match numbers_of(told.alloc(), context, cells) {
        Ok(numbers) => tell_numbers(&numbers, told),
        Err(fault) => told.words(&fault),
    }
}

/// The variables of the context's block.
pub fn tell_variables(
    project: &Project,
    context: &Context<'_>,
    entered: &Block,
    cells: &[Cell],
    told: &mut Told,
) {
    match named_types(told.alloc(), project) {
        Ok(types) => tell_typed(&types, context, entered, cells, told),
        Err(_) => told.lose(),
    }
}
