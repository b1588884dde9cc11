//! Nodes: expressions, of which each part is a node that stands before it.

use pv_place::Place;
use pv_word::Ty;

/// What is read and written at once. Cells go by their numbers.
#[derive(Clone, Copy)]
pub enum Spot {
    Visible(usize),
    /// A brief cell of the activation, of this type.
    Brief(Ty, usize),
    /// A bit of the byte in a visible cell.
    Bit(u32, u32),
    /// As many bytes from a visible cell on, as a value of the type.
    Bytes(Ty, u32, u32),
    Fixed(i64),
    Nowhere,
}

/// Among which cells the number that an address has is that of one.
#[derive(Clone, Copy)]
pub enum Part {
    /// Visible ones, from the first cell of the instance on.
    Own,
    Visible,
    /// The brief ones of the activation, of this type.
    Brief(Ty),
    Nowhere,
}

/// What is read or assigned.
#[derive(Clone, Copy)]
pub enum Operand {
    At(Spot),
    /// The visible cell that stands so far behind the first one of the instance.
    Own(u32),
    /// The cell that stands so far behind the one whose number the node has.
    Element(Part, u32, usize),
}

/// What is made of one value.
#[derive(Clone, Copy)]
pub enum OneOp {
    Minus,
    Not,
    /// A conversion.
    Wrap,
    Abs,
}

/// What is made of two values.
#[derive(Clone, Copy)]
pub enum TwoOp {
    Mul,
    Div,
    Mod,
    Add,
    Sub,
    Less,
    Greater,
    LessEqual,
    GreaterEqual,
    Equal,
    NotEqual,
    And,
    Xor,
    Or,
    Min,
    Max,
    Shl,
    Shr,
}

/// What is made of three values.
#[derive(Clone, Copy)]
pub enum ThreeOp {
    Limit,
    Sel,
}

/// An expression, or the number of an element's cell. Parts go by their numbers in the array.
#[derive(Clone, Copy)]
pub enum Node {
    Constant(i64),
    Read(Operand, Place),
    One {
        op: OneOp,
        ty: Ty,
        arg: usize,
    },
    Two {
        op: TwoOp,
        ty: Ty,
        place: Place,
        left: usize,
        right: usize,
    },
    Three {
        op: ThreeOp,
        first: usize,
        second: usize,
        third: usize,
    },
    /// The number that `from` has, and so many cells more for each step of the index above `low`; none is above `most`.
    Element {
        from: usize,
        index: usize,
        low: i64,
        high: i64,
        stride: u32,
        most: u32,
        place: Place,
    },
}
