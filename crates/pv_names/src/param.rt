//! Which parameter of a block an argument is for.
ghost use Rattle.std.specs.Prelude.{◌≡◌, option_map};
ghost use Rattle.pv_types.specs.View.{var_tree};
ghost use Rattle.pv_tree.specs.View.{arg_tree};
ghost use Rattle.pv_tree.specs.Callees as callees;
ghost use Rattle.pv_names.specs.Entries.{block_of};
ghost use Rattle.pv_names.specs.Views.{held_tree};
ghost use Rattle.pv_names.specs.Callees.{how_tree, param_tree};
ghost use Rattle.pv_names.specs.Params.{param_of};

use crate::callee::{How, is_by_stl};
use crate::doubled::Part;
use crate::entry::Entry;
use crate::needed::is_fc;
use crate::thing::{Held, level_of};
use pv_tree::Arg;
use pv_types::{Name, Section, Var};
use pv_word::Ty;

/// A parameter: a variable of an interface, or a function's value, which is the output RET_VAL where STL calls it.
#[derive(Clone, Copy)]
pub enum Param<'p> {
    Var(Var<'p>),
    Value(Ty),
}

/// Whether a section is one of parameters.
pub(crate) fn is_param(section: Section) -> bool
    ensures { result ≡ callees.is_param section }
{
    match section {
        Section::Input | Section::Output | Section::InOut => true,
        Section::Static | Section::Temp | Section::Const => false,
    }
}

/// The only input of a function.
pub fn only_var<'p>(entry: &'p Entry<'p>) -> Option<Var<'p>>
    ensures { option_map (λ v. param_of (var_tree v)) result
        ≡ callees.only_input (block_of entry.now) }
{
    if is_fc(&entry.block.kind) {
        entry.sole_input()
    } else {
        None
    }
}

/// The only input of a function, as a parameter.
fn only_input<'p>(entry: &'p Entry<'p>) -> Option<Param<'p>>
    ensures { option_map param_tree result ≡ callees.only_input (block_of entry.now) }
{
    match only_var(entry) {
        Some(var) => Some(Param::Var(var)),
        None => None,
    }
}

/// The value of a function, where STL calls it and this is the value's name.
fn value_param<'p>(how: How, entry: &'p Entry<'p>, name: &Name) -> Option<Param<'p>>
    ensures { option_map param_tree result ≡ callees.first_param
        (callees.value_param (how_tree how) (block_of entry.now)) name.now.key }
{
    if !is_by_stl(how) || name.key().bytes() != b"ret_val".as_slice() {
        return None;
    }
    if entry.find(name).is_some() {
        return None;
    }
    match entry.block.interface.value {
        Some(ty) => Some(Param::Value(ty)),
        None => None,
    }
}

/// The parameter of this name.
pub fn named_param<'p>(how: How, entry: &'p Entry<'p>, name: &Name) -> Option<Param<'p>>
    ensures { option_map param_tree result ≡ callees.first_param
        (callees.params_of (how_tree how) (block_of entry.now)) name.now.key }
{
    match entry.find_of(Part::Params, name) {
        Some(var) => Some(Param::Var(var)),
        None => value_param(how, entry, name),
    }
}

/// The parameter that an argument is for.
pub fn param_for<'p>(how: How, entry: &'p Entry<'p>, arg: &Arg) -> Option<Param<'p>>
    ensures { option_map param_tree result
        ≡ callees.param_for (how_tree how) (block_of entry.now) (arg_tree arg.now) }
{
    match &arg.name {
        None => only_input(entry),
        Some((name, _)) => named_param(how, entry, name),
    }
}

/// The section of a parameter.
pub fn section_of_param(param: Param) -> Section
    ensures { result ≡ (param_tree param.entry).section }
{
    match param {
        Param::Var(var) => var.of.section,
        Param::Value(_) => Section::Output,
    }
}

/// The type of a parameter.
pub fn type_of_param<'p>(param: Param<'p>) -> Held<'p>
    ensures { held_tree result ≡ (param_tree param.entry).ty }
{
    match param {
        Param::Var(var) => level_of(&var.of.ty),
        Param::Value(ty) => Held::Plain(ty),
    }
}
