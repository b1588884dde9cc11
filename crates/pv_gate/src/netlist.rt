//! The nodes of a circuit.

/// The literal of constant true, which is node 1.
pub const TRUE: i32 = 1;

/// The literal of constant false.
pub const FALSE: i32 = -1;

/// The largest limit on gates. With as many inputs each node's number fits an `i32`.
pub const MAX_GATES: u32 = 1_000_000_000;

/// The largest number of inputs.
pub const MAX_INPUTS: u32 = 1_000_000_000;

/// A node of a circuit. Its operands are literals of nodes before it.
#[derive(Clone, Copy, Debug, PartialEq, Eq, PartialOrd, Ord, Hash)]
pub enum Node {
    /// Constant true: node 1 alone.
    True,
    /// An input, with its number among the inputs, from 0 in the order in which they were made.
    Input(u32),
    /// Both operands.
    And(i32, i32),
    /// One of the two operands and not the other.
    Xor(i32, i32),
    /// The second operand where the first is true, else the third.
    Mux(i32, i32, i32),
}
