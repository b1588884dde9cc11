//! The rules of the language on instructions: the least place at which the instructions of a project break one.
//!
//! The rules on names, calls, indexes and addresses are those of statements too, and stand in pv_rules_code.
#![tactic(auto)]

mod around;
mod group;
mod instruction;
mod label;
mod literal;
mod nesting;
mod numbers;
mod operand;
mod range;
mod sites;

pub use instruction::{operand_of_instruction, read_operand};
pub use sites::{
    outside_behind, refused_operand_or_literal, wrong_label, wrong_nesting, wrong_range,
};
