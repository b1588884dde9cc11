//! What stands behind an instruction's word or sign, and its label, part by part.
ghost use Rattle.std.specs.Prelude.{◌≡◌, option_map};
ghost use Rattle.pv_tree.specs.View.{operand_tree, call_tree, instr_tree};

use crate::expr::Operand;
use crate::instr::{Behind, Instr};
use crate::stmt::CallTree;
use pv_place::Place;
use pv_types::{Literal, Name};

impl Instr {
    /// The label and its place, where there is one.
    pub fn label(&self) -> Option<&(Name, Place)>
        ensures { option_map (λ l. l.now) result ≡ (instr_tree self.now).label }
    {
        match &self.label {
            Some(label) => Some(label.as_ref()),
            None => None,
        }
    }

    /// The operand, where there is one.
    pub fn operand(&self) -> Option<&Operand>
        ensures { option_map (λ o. operand_tree o.now) result ≡ (instr_tree self.now).operand }
    {
        match &self.behind {
            Behind::Operand(operand) => Some(operand.as_ref()),
            Behind::Nothing => None,
            Behind::Literal(_) => None,
            Behind::Call(_) => None,
        }
    }

    /// The literal, where there is one.
    pub fn literal(&self) -> Option<&Literal>
        ensures { option_map (λ l. l.now) result ≡ (instr_tree self.now).literal }
    {
        match &self.behind {
            Behind::Literal(literal) => Some(literal.as_ref()),
            Behind::Nothing => None,
            Behind::Operand(_) => None,
            Behind::Call(_) => None,
        }
    }

    /// The call, where there is one.
    pub fn call(&self) -> Option<&CallTree>
        ensures { option_map (λ c. call_tree c.now) result ≡ (instr_tree self.now).call }
    {
        match &self.behind {
            Behind::Call(call) => Some(call.as_ref()),
            Behind::Nothing => None,
            Behind::Operand(_) => None,
            Behind::Literal(_) => None,
        }
    }
}
