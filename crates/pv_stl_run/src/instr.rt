//! Instructions with their names found.

use crate::numbers::Part;
use crate::registers::Junction;
use pv_place::Place;
use pv_word::Ty;

/// Where a jump goes: to an instruction behind it, or back to the label of a range.
#[derive(Clone, Copy)]
pub enum Goal {
    Ahead(usize),
    Back(usize),
}

/// What integer math makes of ACCU2 and ACCU1.
#[derive(Clone, Copy)]
pub enum Math {
    Sum(Part),
    Difference(Part),
    /// `*I`.
    ProductOfWords,
    /// `*D`.
    Product,
    /// `/I`.
    QuotientOfWords,
    /// `/D`.
    QuotientOfWholes,
    /// MOD.
    RemainderOfWholes,
}

/// How ACCU2 has to be to ACCU1.
#[derive(Clone, Copy)]
pub enum Relation {
    Equal,
    NotEqual,
    Greater,
    Less,
    GreaterEqual,
    LessEqual,
}

/// How words are joined bit by bit.
#[derive(Clone, Copy)]
pub enum Combining {
    And,
    Or,
    Xor,
}

/// Where a shift goes.
#[derive(Clone, Copy)]
pub enum Shifting {
    Left,
    Right,
}

/// What an instruction does to the registers alone.
#[derive(Clone, Copy)]
pub enum Change {
    /// SAVE, NOP, BLD.
    Nothing,
    /// O alone.
    KeepOr,
    Open(Junction),
    Close,
    /// NOT.
    Negate,
    /// SET, CLR.
    Put(bool),
    /// L of a literal: its bits.
    Load(i64),
    Calculate(Math),
    Compare(Relation, Part),
    /// AW and its like, with ACCU2 or a literal.
    Combine(Combining, Part, Option<i64>),
    Shift(Shifting, Part, u32),
    /// ITD.
    Extend,
    /// TAK.
    Swap,
    Push,
    Pop,
}

/// What an operand takes of the result.
#[derive(Clone, Copy)]
pub enum Written {
    /// `=`: the result.
    Result,
    /// S, R: this bit, where the result is 1.
    Where(bool),
}

/// What CC1 and CC0 have to be.
#[derive(Clone, Copy)]
pub enum Test {
    Zero,
    NotZero,
    Plus,
    Minus,
    NotMinus,
    NotPlus,
}

/// When a jump is made.
#[derive(Clone, Copy)]
pub enum When {
    Always,
    /// JC, JCN: where the result is this.
    Result(bool),
    Codes(Test),
    /// JO.
    Overflow,
    /// LOOP.
    Counted,
}

/// What an instruction does. Operands and calls go by their numbers in the program.
#[derive(Clone, Copy)]
pub enum Action {
    Change(Change),
    /// A, AN, O, ON, X and XN with an operand.
    Join(Junction, usize),
    Write(Written, usize),
    /// FP, which is `rising`, and FN.
    Edge(bool, usize),
    /// L of an operand, of its type.
    Load(Ty, usize),
    /// T, as a value of the operand's type.
    Transfer(Ty, usize),
    Jump(When, Goal),
    /// BE, BEU.
    End,
    /// BEC.
    EndWhere,
    Call(usize),
}

/// An instruction, with the place of its word. Where its label begins a range, to which a jump from there or from behind it goes
/// back, `range` is the label's place.
#[derive(Clone, Copy)]
pub struct Instr {
    pub action: Action,
    pub place: Place,
    pub range: Option<Place>,
}
