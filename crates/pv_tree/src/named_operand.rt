//! The operand that an instruction names.
ghost use Rattle.std.specs.Prelude.{◌≡◌, option_map};
ghost use Rattle.pv_tree.specs.View.{operand_tree, instr_tree};
ghost use Rattle.pv_tree.specs.InstructionGroups as groups;

use crate::expr::Operand;
use crate::instr::{Instr, Op};

/// Whether an instruction is a jump, whose operand is a label.
fn is_jump(op: Op) -> bool
    ensures { result ≡ groups.is_jump (groups.group_of op) }
{
    matches!(
        op,
        Op::Ju
            | Op::Jc
            | Op::Jcb
            | Op::Jcn
            | Op::Jnb
            | Op::Jz
            | Op::Jn
            | Op::Jp
            | Op::Jm
            | Op::Jpz
            | Op::Jmz
            | Op::Jo
            | Op::Loop
    )
}

/// The operand that an instruction reads or writes: all but that of a jump.
pub fn operand_of_instruction(instr: &Instr) -> Option<&Operand>
    ensures { option_map (λ o. operand_tree o.now) result
        ≡ groups.operand_of_instruction (instr_tree instr.now) }
{
    if is_jump(instr.op) {
        None
    } else {
        instr.operand()
    }
}
