//! What lies on the stack while a tree is built: tokens that were passed, and the parts that were
//! made of them.

use crate::code_item::CodeItem;
use crate::decl_item::DeclItem;
use pv_lex::Kind;
use pv_place::Place;
use pv_tree::{Expr, Operand};
use pv_types::Literal;

/// A token with its bytes, from which its value is computed where one is asked for.
#[derive(Clone, Copy)]
pub struct Sliced<'a> {
    pub bytes: &'a [u8],
    pub place: Place,
    pub kind: Kind,
}

/// A thing on the stack.
#[derive(Drop)]
pub enum Item<'a> {
    /// A token.
    Token(Sliced<'a>),
    /// Where an operand begins, and the steps behind it so far. A word is one without steps.
    Path(Operand),
    /// An expression.
    Expr(Expr),
    /// A literal of declarations, labels and BY.
    Literal(Literal),
    /// A part of a statement or of a call.
    Code(CodeItem),
    /// A part of a declaration or of a block.
    Decl(DeclItem),
}

// An item's bytes: each push and each pop moves them.
const _: () = prove!(size_of::<Item>() <= 80);
