//! Terms, as a table of nodes.

use crate::op::{BinaryOp, UnaryOp};
use pv_word::Ty;

/// A node of a table of terms. Its operands are numbers of nodes that stand before it, in an automaton; in other parts a number that
/// names none of these is read as the constant FALSE. Each operator has the type of its result.
#[derive(Clone, Copy)]
pub enum Node {
    Constant(Ty, i128),
    /// The variable of this number.
    Variable(u32),
    Unary(UnaryOp, Ty, u32),
    Binary(BinaryOp, Ty, u32, u32),
    /// The condition, what it gives where it is true, and what else.
    Select(Ty, u32, u32, u32),
}
