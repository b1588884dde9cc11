//! What the instructions of STL make of what lies on the stack while a tree is built.
#![tactic(auto)]

mod instructions;
mod literals;
mod op_texts;
mod parts;

pub use instructions::act_on_instr;
