//! What an instruction names.
ghost use Rattle.std.specs.Prelude.{◌≡◌, option_map};
ghost use Rattle.pv_tree.specs.InstructionGroups as groups;
ghost use Rattle.pv_tree.specs.Rules.Callable as callable;
ghost use Rattle.pv_tree.specs.View.{instr_tree, operand_tree};

use crate::group::{Group, group_of};
use pv_tree::{Instr, Operand};

/// The operand that an instruction reads or writes: all but that of a jump.
pub fn operand_of_instruction(instr: &Instr) -> Option<&Operand>
    ensures { option_map (λ o. operand_tree o.now) result
        ≡ groups.operand_of_instruction (instr_tree instr.now) }
{
    match group_of(instr.op) {
        Group::Jump => None,
        _ => instr.operand(),
    }
}

/// The operand that an instruction reads.
pub fn read_operand(instr: &Instr) -> Option<&Operand>
    ensures { option_map (λ o. operand_tree o.now) result
        ≡ callable.read_operand (instr_tree instr.now) }
{
    match group_of(instr.op) {
        Group::BitWritten | Group::Transfer | Group::Jump => None,
        _ => instr.operand(),
    }
}
