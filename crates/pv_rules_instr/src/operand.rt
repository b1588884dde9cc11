//! Operands behind instructions, each by itself: which an instruction doesn't take.
ghost use Rattle.std.specs.Prelude.{◌≡◌, IfOk, map, not, option_map, option_and_then};
ghost use Rattle.pv_tree.specs.Fits as fits;
ghost use Rattle.pv_tree.specs.InstructionGroups as groups;
ghost use Rattle.pv_tree.specs.Sorts as sorts;
ghost use Rattle.pv_tree.specs.Things as things;
ghost use Rattle.pv_tree.specs.Rules.Behind as behind;
ghost use Rattle.pv_tree.specs.View.{operand_tree, step_tree, steps_of};
ghost use Rattle.pv_names.specs.InScope.{scope_of};
ghost use Rattle.pv_names.specs.Sorts.{sort_tree};
ghost use Rattle.pv_names.specs.Views.{thing_tree};
ghost use Rattle.pv_rules_instr.specs.AtLabels.{label_tree, ends_here};
ghost use Rattle.pv_rules_instr.specs.AtOperands.{operand_at};
ghost use Rattle.pv_rules_instr.specs.Groups.{group_tree};

use crate::group::Group;
use pv_names::{Scope, Sort, Thing, is_bool, own_type};
use pv_place::Place;
use pv_rules_expr::{is_whole, where_is};
use pv_tree::{Operand, Root};
use pv_types::Name;
use std::alloc::{AllocError, Global};

/// A label, or the name of one behind a jump, with its place.
#[derive(Clone, Copy)]
pub(crate) struct Label<'p> {
    pub(crate) name: &'p Name,
    pub(crate) place: Place,
}

/// Whether a part is whole or of another type than BOOL.
fn isnt_bool(sort: Sort) -> bool
    ensures { result ≡ fits.is_of_other_type sorts.is_bool (sort_tree sort) }
{
    if is_whole(sort) {
        return true;
    }
    match own_type(sort) {
        Some(ty) => !is_bool(ty),
        None => false,
    }
}

/// Whether a part is whole or a BOOL.
fn isnt_number(sort: Sort) -> bool
    ensures { result ≡ fits.is_of_other_type (λ ty. not (sorts.is_bool ty)) (sort_tree sort) }
{
    if is_whole(sort) {
        return true;
    }
    match own_type(sort) {
        Some(ty) => is_bool(ty),
        None => false,
    }
}

/// What an instruction that writes its operand gives a value to: constants and blocks break a rule of their own.
fn sort_of_target(scope: &Scope, alloc: Global, operand: &Operand) -> Result<Sort, AllocError>
    ensures { IfOk result (λ s. sort_tree s
        ≡ fits.sort_of_target (scope_of scope.now) (operand_tree operand.now)) }
{
    match scope.thing_of(operand) {
        Thing::Part(_) => scope.sort_of_operand(alloc, operand),
        Thing::Constant(_) => Ok(Sort::Broken),
        Thing::Block(_) => Ok(Sort::Broken),
        Thing::NoName(_) => Ok(Sort::Broken),
        Thing::NoArray(_) => Ok(Sort::Broken),
        Thing::ADate(_) => Ok(Sort::Broken),
        Thing::Untold => Ok(Sort::Broken),
    }
}

/// Whether what an operand means breaks a rule of its own.
fn has_own_fault(thing: Thing) -> bool
    ensures { result ≡ behind.has_own_fault (thing_tree thing.entry) }
{
    match thing {
        Thing::NoName(_) => true,
        Thing::ADate(_) => true,
        Thing::Part(_) => false,
        Thing::Constant(_) => false,
        Thing::Block(_) => false,
        Thing::NoArray(_) => false,
        Thing::Untold => false,
    }
}

/// Whether an operand has no steps.
fn ends_here(operand: &Operand) -> bool
    ensures { result ≡ ends_here (steps_of (map step_tree operand.now.steps.items)) }
{
    operand.steps.as_slice().split_first().is_none()
}

/// The label that a jump's operand names: one word without `#` and steps.
pub(crate) fn label_of_operand(operand: &Operand) -> Option<Label>
    ensures { option_map label_tree result ≡ groups.label_of_operand (operand_tree operand.now) }
{
    match &*operand.root {
        Root::Local { name, hash, place } => {
            if !*hash && ends_here(operand) {
                Some(Label {
                    name,
                    place: *place,
                })
            } else {
                None
            }
        }
        Root::Named(_) => None,
        Root::Area { .. } => None,
    }
}

/// Whether an instruction of the group doesn't take the operand: what has no type is no fault here.
fn refuses_operand(
    scope: &Scope,
    alloc: Global,
    group: Group,
    operand: &Operand,
) -> Result<bool, AllocError>
    ensures { IfOk result (λ b. b ≡ behind.refuses_operand (scope_of scope.now) (group_tree group)
        (operand_tree operand.now)) }
{
    match group {
        Group::BitRead => Ok(isnt_bool(scope.sort_of_operand(alloc, operand)?)),
        Group::BitWritten => Ok(isnt_bool(sort_of_target(scope, alloc, operand)?)),
        Group::Load => Ok(isnt_number(scope.sort_of_operand(alloc, operand)?)),
        Group::Transfer => Ok(isnt_number(sort_of_target(scope, alloc, operand)?)),
        Group::Jump => Ok(label_of_operand(operand).is_none()),
        Group::WordLogic
        | Group::DoubleLogic
        | Group::WordShift
        | Group::DoubleShift
        | Group::NoOperation
        | Group::Display
        | Group::Opening
        | Group::Closing
        | Group::BlockEnd
        | Group::Calling
        | Group::Alone => Ok(!has_own_fault(scope.thing_of(operand))),
    }
}

/// The place of an operand that an instruction of the group doesn't take.
pub(crate) fn operand_place(
    scope: &Scope,
    alloc: Global,
    group: Group,
    operand: &Operand,
) -> Result<Option<Place>, AllocError>
    ensures { IfOk result (λ o. o ≡ operand_at (scope_of scope.now) (group_tree group)
        (operand_tree operand.now)) }
{
    let refused = refuses_operand(scope, alloc, group, operand)?;
    Ok(where_is(refused, operand.place))
}
