//! Expressions, and the operands that they read.

use pv_place::Place;
use pv_types::Name;
use pv_word::Ty;

/// An expression.
#[derive(Drop)]
#[cycle(expression)]
pub enum Expr {
    /// A literal: its type where it has one of its own, its value (TRUE is 1, FALSE is 0), and its
    /// token's place. A sign before it is an operator.
    Lit {
        ty: Option<Ty>,
        value: i128,
        place: Place,
    },
    /// An operand that is read.
    Read(Operand),
    /// An operator before its operand, with the operator's place.
    Unary {
        op: UnaryOp,
        place: Place,
        arg: Box<Expr>,
    },
    /// An operator between its operands, with the operator's place.
    Binary {
        op: BinaryOp,
        place: Place,
        left: Box<Expr>,
        right: Box<Expr>,
    },
    /// A standard function of its arguments, which stand in the function's order, with the place of
    /// its word.
    Std {
        function: StdFunction,
        place: Place,
        args: Vec<Expr>,
    },
    /// An expression in parentheses, with the place of the opening one.
    Paren(Place, Box<Expr>),
}

// An expression's bytes.
const _: () = prove!(size_of::<Expr>() <= 48);

/// What is read or assigned: where it begins, the steps from there, and the place of its first
/// token. A box holds where it begins, so that an operand lies in an expression or a statement
/// without making them large.
#[derive(Drop)]
#[cycle(expression)]
pub struct Operand {
    pub root: Box<Root>,
    pub steps: Vec<Step>,
    pub place: Place,
}

/// A step into a part of an operand.
#[derive(Drop)]
#[cycle(expression)]
pub enum Step {
    /// The field of this name, with the name's place.
    Field(Name, Place),
    /// The element at this index, with the place of `[`.
    Index(Box<Expr>, Place),
}

/// Where an operand begins.
#[derive(Drop)]
pub enum Root {
    /// An unquoted word, whether a `#` stands before it, and the word's own place.
    Local {
        name: Name,
        hash: bool,
        place: Place,
    },
    /// A quoted or a numbered name.
    Named(Name),
    /// A bit (1), byte (8), word (16) or double word (32) of an area, from this byte on; the bit's
    /// number is 0 where it is none.
    Area {
        area: Area,
        bits: u32,
        byte: u64,
        bit: u64,
    },
}

/// The areas of inputs, outputs and flags.
#[derive(Clone, Copy, PartialEq, Eq, Debug)]
pub enum Area {
    I,
    Q,
    M,
}

/// An operator before its operand.
#[derive(Clone, Copy, PartialEq, Eq, Debug)]
pub enum UnaryOp {
    Plus,
    Minus,
    Not,
}

/// An operator between its operands.
#[derive(Clone, Copy, PartialEq, Eq, Debug)]
pub enum BinaryOp {
    Mul,
    /// `/` or DIV.
    Div,
    Mod,
    Add,
    Sub,
    Less,
    Greater,
    LessEqual,
    GreaterEqual,
    Equal,
    NotEqual,
    /// AND or `&`.
    And,
    Xor,
    Or,
}

/// A standard function.
#[derive(Clone, Copy, PartialEq, Eq, Debug)]
pub enum StdFunction {
    /// `X_TO_Y`, from the first type to the second.
    Convert(Ty, Ty),
    Abs,
    Min,
    Max,
    Limit,
    Sel,
    Shl,
    Shr,
}
