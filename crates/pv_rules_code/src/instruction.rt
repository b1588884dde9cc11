//! STL instructions, each by itself: where one breaks a rule at its operand or its call.
ghost use Rattle.std.specs.Prelude.{◌≡◌, [], OnOk, None, flat_map, map, option_and_then, option_to_list};
ghost use Rattle.pv_tree.specs.InstructionGroups as groups;
ghost use Rattle.pv_tree.specs.Parts.{calls_of_instruction, parts_of_call, parts_of_operand};
ghost use Rattle.pv_tree.specs.View.{instr_tree};
ghost use Rattle.pv_names.specs.InScope.{scope_of};
ghost use Rattle.pv_rules_expr.specs.NearestIn.{nearest_in};
ghost use Rattle.pv_rules_code.specs.AtCalls.{call_place};
ghost use Rattle.pv_rules_code.specs.AtTargets.{named_place};
ghost use Rattle.pv_rules_code.specs.Nears.{HasAims, HasAsks, HasParts, HasSites, HasSitesIn};
ghost use Rattle.pv_rules_code.specs.Sites.{instr_place};

use crate::called::add_call;
use crate::near::{AimNear, AskNear, SiteNear};
use crate::target::add_aims;
use pv_names::{Scope, how_of};
use pv_rules_expr::{Near, look_in_operand_for_all};
use pv_tree::{Instr, Op, operand_of_instruction};
use std::alloc::{AllocError, Global};

/// Whether an instruction writes its operand.
fn is_written(op: Op) -> bool
    ensures { result ≡ groups.is_written (groups.group_of op) }
{
    matches!(op, Op::Assign | Op::S | Op::R | Op::Fp | Op::Fn | Op::T)
}

/// The nearest places, with those of the operand of an instruction, if it has one.
fn add_operand(
    scope: &Scope,
    alloc: Global,
    instr: &Instr,
    near: &mut Near,
    aims: &mut AimNear,
) -> Result<(), AllocError>
    ensures parts { OnOk result (HasParts (scope_of scope.now) (flat_map (parts_of_operand
        (scope_of scope.now)) (option_to_list (groups.operand_of_instruction
        (instr_tree instr.now)))) near.old near.new) }
    ensures aims { OnOk result (HasAims (λ what. option_and_then (named_place (groups.is_written
        (groups.group_of instr.now.op)) what (scope_of scope.now))
        (groups.operand_of_instruction (instr_tree instr.now))) aims.old aims.new) }
{
    match operand_of_instruction(instr) {
        Some(operand) => {
            look_in_operand_for_all(scope, alloc, operand, near)?;
            add_aims(scope, alloc, is_written(instr.op), operand, aims)
        }
        None => Ok(()),
    }
}

/// The nearest places, with those of the call of an instruction, if it is one.
fn add_called(
    scope: &Scope,
    alloc: Global,
    instr: &Instr,
    near: &mut Near,
    asks: &mut AskNear,
) -> Result<(), AllocError>
    ensures parts { OnOk result (HasParts (scope_of scope.now) (flat_map (parts_of_call
        (scope_of scope.now)) (calls_of_instruction (instr_tree instr.now)))
        near.old near.new) }
    ensures asks { OnOk result (HasAsks (λ what. nearest_in (call_place what (scope_of scope.now)
        []) (calls_of_instruction (instr_tree instr.now)) None) asks.old asks.new) }
{
    match instr.call() {
        Some(call) => add_call(scope, alloc, &[], how_of(instr.op), call, near, asks),
        None => Ok(()),
    }
}

/// The nearest places, with those of an instruction.
fn add_instr(
    scope: &Scope,
    alloc: Global,
    instr: &Instr,
    near: &mut SiteNear,
) -> Result<(), AllocError>
    ensures { OnOk result (HasSites (λ what. instr_place what (scope_of scope.now)
        (instr_tree instr.now)) near.old near.new) }
{
    add_operand(scope, alloc, instr, &mut near.parts, &mut near.aims)?;
    add_called(scope, alloc, instr, &mut near.parts, &mut near.asks)
}

/// The nearest places, with those of instructions.
pub(crate) fn add_instrs(
    scope: &Scope,
    alloc: Global,
    list: &[Instr],
    near: &mut SiteNear,
) -> Result<(), AllocError>
    ensures { OnOk result (HasSitesIn (λ what. instr_place what (scope_of scope.now))
        (map instr_tree list.now) near.old near.new) }
{
    for instr in list {
        add_instr(scope, alloc, instr, near)?;
    }
    Ok(())
}
