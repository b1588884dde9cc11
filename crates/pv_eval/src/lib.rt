//! Expressions and operands with their names found: a flat array of nodes, evaluated in a frame.
//!
//! A node's parts stand before it, so evaluation goes to smaller numbers. What a node means is a list function
//! (`specs/Nodes`); that it means an expression of a block is one record (`specs/Means`), which more nodes keep.
#![tactic(auto)]

mod expression;
mod lower;
mod node;
mod op;
mod operator;
mod room;
mod spot;
mod target;
mod trap;
mod value;
mod write;

pub use expression::Expression;
pub use node::{Node, OneOp, Operand, Part, Spot, ThreeOp, TwoOp};
pub use operator::{one, pattern, three, two};
pub use room::Room;
pub use spot::read;
pub use target::Target;
pub use trap::Trap;
pub use write::write_spot;
