//! Statements and calls.

use crate::expr::{Expr, Operand};
use crate::range::ChoiceRange;
use pv_place::Place;
use pv_types::{Literal, Name};

/// A statement. What is large in one form lies in a box, so that no other form takes its room.
#[derive(Drop)]
pub enum Stmt {
    /// An assignment of a value to a target, with the place of `:=`.
    Assign {
        target: Operand,
        place: Place,
        value: Box<Expr>,
    },
    /// An assignment of a called function's value to a target, with the place of `:=`.
    AssignCall {
        target: Operand,
        place: Place,
        call: Box<CallTree>,
    },
    /// IF: its conditions with their statements, those behind ELSE where it stands, and the place
    /// of IF.
    If {
        arms: Vec<(Expr, Vec<Stmt>)>,
        other: Option<Box<Vec<Stmt>>>,
        place: Place,
    },
    /// CASE: its branches with their values, the statements behind ELSE where it stands, and the
    /// place of CASE.
    Case {
        selector: Box<Expr>,
        branches: Vec<(Vec<ChoiceRange>, Vec<Stmt>)>,
        other: Option<Box<Vec<Stmt>>>,
        place: Place,
    },
    /// FOR: what stands before DO, the statements behind it, and the place of FOR.
    For {
        head: Box<ForHead>,
        body: Vec<Stmt>,
        place: Place,
    },
    While {
        cond: Box<Expr>,
        body: Vec<Stmt>,
        place: Place,
    },
    Repeat {
        body: Vec<Stmt>,
        cond: Box<Expr>,
        place: Place,
    },
    Exit(Place),
    Continue(Place),
    Return(Place),
    Call(Box<CallTree>),
    /// Nothing, with the place of the `;` behind it.
    Empty(Place),
}

// A statement's bytes.
const _: () = prove!(size_of::<Stmt>() <= 64);

/// What stands before the statements of a FOR: its variable with the variable's place, the
/// variable's start and end, and the step where BY stands.
#[derive(Drop)]
pub struct ForHead {
    pub var: Name,
    pub var_place: Place,
    pub first: Expr,
    pub last: Expr,
    pub by: Option<Literal>,
}

/// A value of a branch of CASE.
#[derive(Drop)]
pub enum Choice {
    Lit(Literal),
    /// A constant's name, with its place.
    Const(Name, Place),
}

/// A call: the called name, whether a `#` stands before it, the second name with its place, the
/// arguments, and the place of the first token.
#[derive(Drop)]
pub struct CallTree {
    pub name: Name,
    pub name_place: Place,
    pub hash: bool,
    pub base: Option<(Name, Place)>,
    pub args: Vec<Arg>,
    pub place: Place,
}

/// An argument: its word with the word's place where it has one, its value, and the place of `:=`
/// or `=>`, or of an unnamed argument's first token.
#[derive(Drop)]
pub struct Arg {
    pub name: Option<(Name, Place)>,
    pub value: Expr,
    pub place: Place,
}
