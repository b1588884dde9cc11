//! STL instructions.

use crate::expr::Operand;
use crate::stmt::CallTree;
use pv_place::Place;
use pv_types::{Literal, Name};

/// An instruction: its label with the label's place, what stands behind its word or sign, the
/// word's place, and what it does.
#[derive(Drop)]
pub struct Instr {
    pub label: Option<Box<(Name, Place)>>,
    pub behind: Behind,
    pub place: Place,
    pub op: Op,
}

// An instruction's bytes.
const _: () = prove!(size_of::<Instr>() <= 64);

/// What stands behind an instruction's word or sign.
#[derive(Drop)]
pub enum Behind {
    Nothing,
    Operand(Box<Operand>),
    Literal(Box<Literal>),
    Call(Box<CallTree>),
}

/// An instruction's word or sign.
#[derive(Clone, Copy, PartialEq, Eq)]
pub enum Op {
    A,
    An,
    O,
    On,
    X,
    Xn,
    /// `A(`.
    AOpen,
    /// `AN(`.
    AnOpen,
    /// `O(`.
    OOpen,
    /// `ON(`.
    OnOpen,
    /// `X(`.
    XOpen,
    /// `XN(`.
    XnOpen,
    /// `)`.
    Close,
    /// `=`.
    Assign,
    S,
    R,
    Not,
    Set,
    Clr,
    Fp,
    Fn,
    Save,
    Nop,
    Bld,
    L,
    T,
    /// `+I`.
    AddI,
    /// `-I`.
    SubI,
    /// `*I`.
    MulI,
    /// `/I`.
    DivI,
    /// `+D`.
    AddD,
    /// `-D`.
    SubD,
    /// `*D`.
    MulD,
    /// `/D`.
    DivD,
    Mod,
    /// `==I`.
    EqI,
    /// `<>I`.
    NeI,
    /// `>I`.
    GtI,
    /// `<I`.
    LtI,
    /// `>=I`.
    GeI,
    /// `<=I`.
    LeI,
    /// `==D`.
    EqD,
    /// `<>D`.
    NeD,
    /// `>D`.
    GtD,
    /// `<D`.
    LtD,
    /// `>=D`.
    GeD,
    /// `<=D`.
    LeD,
    Aw,
    Ow,
    Xow,
    Ad,
    Od,
    Xod,
    Slw,
    Srw,
    Sld,
    Srd,
    Itd,
    Tak,
    Push,
    Pop,
    Ju,
    Jc,
    Jcb,
    Jcn,
    Jnb,
    Jz,
    Jn,
    Jp,
    Jm,
    Jpz,
    Jmz,
    Jo,
    Loop,
    Be,
    Beu,
    Bec,
    Call,
    Uc,
}
