//! What an operand names, and what is written to it.

use pv_word::Ty;

/// An index, the number of a DINT's term, that goes from `low` to `high` among elements of `stride` cells each.
#[derive(Clone, Copy)]
pub struct Move {
    pub index: u32,
    pub low: i128,
    pub high: i128,
    pub stride: u32,
}

/// What is read or written at the lowest indexes.
#[derive(Clone, Copy)]
pub enum Storage {
    /// A variable of this type.
    Cell(Ty, u32),
    /// A variable of this type; the next one is its 'set', a BOOL that says whether it has a value.
    Brief(Ty, u32),
    /// This bit, from 0 to 7, of the BYTE in a variable.
    Bit(u32, u32),
    /// A value of this type in so many BYTEs from a variable on, the high one first: one, two or four.
    Bytes(Ty, u32, u32),
    /// A constant.
    Fixed(i128),
    /// What an operand that breaks a rule names: 0 is read, and nothing is written.
    Nowhere,
}

/// What is put, by numbers of terms: a value; or of a BOOL, where the first term is true, the second, and else what was there.
#[derive(Clone, Copy)]
pub enum Writing {
    Assign(u32),
    Where(u32, u32),
}
