//! Nestings: more than seven open, one that isn't closed or opened, or a jump, a label, a call or the block's end inside one.
ghost use Rattle.std.specs.Prelude.{◌≡◌, IfOk, OnOk, Some, map, reverse};
ghost use Rattle.pv_tree.specs.InstructionGroups as groups;
ghost use Rattle.pv_tree.specs.InstructionGroups.{group_of};
ghost use Rattle.pv_tree.specs.Rules.OpenNestings as open_nestings;
ghost use Rattle.pv_tree.specs.View.{instr_tree};
ghost use Rattle.pv_rules_expr.specs.NearestIn.{nearest_in};
ghost use Rattle.pv_rules_instr.specs.AtNestings.{bracket_at, inside_at, is_empty, nesting_at, nesting_place};
ghost use Rattle.pv_rules_instr.specs.Groups.{group_tree};

use crate::group::{Group, group_of};
use pv_place::Place;
use pv_rules_expr::{nearer_of, where_is};
use pv_tree::Instr;
use std::alloc::{AllocError, Global};

/// The place of an instruction's first token: its label's, where it has one.
fn first_place(instr: &Instr) -> Place
    ensures { result ≡ groups.first_place_of (instr_tree instr.now) }
{
    match instr.label() {
        Some(label) => label.1,
        None => instr.place,
    }
}

/// Whether an instruction of the group may not stand inside a nesting.
fn is_kept_outside(group: Group) -> bool
    ensures { result ≡ open_nestings.is_kept_outside (group_tree group) }
{
    matches!(group, Group::Jump | Group::Calling | Group::BlockEnd)
}

/// An opening that is too many, or a closing without one; the open nestings stand with the last one last.
fn bracket_place(group: Group, pending: &[Place], place: Place) -> Option<Place>
    ensures { result ≡ bracket_at (group_tree group) (reverse pending.now) place }
{
    match group {
        Group::Opening => where_is(pending.len() >= 7, place),
        Group::Closing => where_is(pending.is_empty(), place),
        _ => None,
    }
}

/// A jump, a label, a call or the block's end inside a nesting.
fn inside_place(group: Group, pending: &[Place], instr: &Instr) -> Option<Place>
    requires { group_tree group ≡ groups.group_of instr.now.op }
    ensures { result ≡ inside_at (reverse pending.now) (instr_tree instr.now) }
{
    let kept_outside = is_kept_outside(group) || instr.label().is_some();
    where_is(kept_outside && !pending.is_empty(), first_place(instr))
}

/// Where an instruction is wrong behind these open nestings.
fn nesting_at(pending: &[Place], instr: &Instr) -> Option<Place>
    ensures { result ≡ nesting_at (reverse pending.now) (instr_tree instr.now) }
{
    let group = group_of(instr.op);
    let bracket = bracket_place(group, pending, instr.place);
    nearer_of(bracket, inside_place(group, pending, instr))
}

/// Opens or closes a nesting, as the instruction does.
fn pass(pending: &mut Vec<Place>, instr: &Instr) -> Result<(), AllocError>
    ensures { OnOk result (reverse pending.new.items ≡ open_nestings.open_behind
        (reverse pending.old.items) (groups.group_of instr.now.op) instr.now.place) }
{
    match group_of(instr.op) {
        Group::Opening => {
            pending.push(instr.place)?;
            Ok(())
        }
        Group::Closing => {
            let _last = pending.pop();
            Ok(())
        }
        _ => Ok(()),
    }
}

/// The nearest of places.
fn nearest_of(places: &[Place], nearest: Option<Place>) -> Option<Place>
    ensures { result ≡ nearest_in (λ p. Some p) places.now nearest }
{
    let mut best = nearest;
    for place in places {
        best = nearer_of(best, Some(*place));
    }
    best
}

/// The nearest place at which a nesting is wrong.
pub(crate) fn nesting_place(alloc: Global, list: &[Instr]) -> Result<Option<Place>, AllocError>
    ensures { IfOk result (λ o. o ≡ nesting_place (map instr_tree list.now)) }
{
    let mut pending = Vec::new(alloc);
    let mut best = None;
    for instr in list {
        best = nearer_of(best, nesting_at(pending.as_slice(), instr));
        pass(&mut pending, instr)?;
    }
    Ok(nearest_of(pending.as_slice(), best))
}
