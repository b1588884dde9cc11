//! Parts of statements and calls, as they lie on the stack.

use pv_tree::{Arg, CallTree, Choice, ChoiceRange, Expr, Stmt};
use pv_types::Literal;

/// The right side of an assignment.
#[derive(Drop)]
pub enum Value {
    Expr(Box<Expr>),
    /// A call of a function that has a value.
    Call(Box<CallTree>),
}

/// A part of a statement or of a call. What is large and rare lies in a box, so that no other part takes its room.
#[derive(Drop)]
pub enum CodeItem {
    /// The arguments of a call so far.
    Args(Vec<Arg>),
    Call(Box<CallTree>),
    Value(Value),
    Stmt(Stmt),
    /// A list of statements so far.
    Stmts(Vec<Stmt>),
    /// The conditions of an IF so far, each with its statements.
    Arms(Vec<(Expr, Vec<Stmt>)>),
    /// What stands behind ELSE.
    Else(Option<Box<Vec<Stmt>>>),
    /// What stands behind BY.
    By(Option<Box<Literal>>),
    /// A value of a label.
    Choice(Box<Choice>),
    /// The values of a label so far.
    Choices(Vec<ChoiceRange>),
    /// The branches of a CASE so far, but for the one that is read.
    Branches(Vec<(Vec<ChoiceRange>, Vec<Stmt>)>),
}
