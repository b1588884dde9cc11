//! Operators of terms.

use pv_word::Ty;

/// What is made of one value.
#[derive(Clone, Copy)]
pub enum UnaryOp {
    /// Each bit turned round.
    Not,
    /// The number with the other sign, wrapped.
    Negate,
    /// The pattern so many places higher, with zeros from below, whatever the number.
    Left(u32),
    /// The pattern so many places lower, with zeros from above, whatever the number.
    Right(u32),
    /// The value wrapped to the result's type.
    Convert,
}

/// What is made of two values.
#[derive(Clone, Copy)]
pub enum BinaryOp {
    And,
    Or,
    Xor,
    Add,
    Subtract,
    Multiply,
    /// Toward zero; by zero -1, or 1 for a negative dividend, wrapped.
    Divide,
    /// With the sign of the dividend; by zero the dividend.
    Remainder,
    Less,
    Equal,
    /// Whether the sum of two values of the type is none.
    SumOverflow(Ty),
    /// Whether the difference of two values of the type is none.
    DifferenceOverflow(Ty),
    /// Whether the product of two values of INT is none.
    ProductOverflow,
}
