//! Blocks.

use crate::expr::Operand;
use crate::instr::Instr;
use crate::stmt::Stmt;
use pv_place::Place;
use pv_types::{Interface, Literal, Name};

/// A block, with the place of its name's first token, where a doubled name is reported.
#[derive(Drop)]
pub struct Block {
    pub kind: BlockKind,
    pub name: Name,
    pub interface: Interface,
    pub body: Body,
    pub place: Place,
}

/// The kind of a block.
#[derive(Drop)]
pub enum BlockKind {
    /// A function block.
    Fb,
    /// A function.
    Fc,
    /// An organization block.
    Ob,
    /// A data block, with the function block or the named structure that it is of, unless it has
    /// fields of its own.
    Db { of: Option<(Name, Place)> },
    /// A named structure.
    Udt,
}

/// The body of a block.
#[derive(Drop)]
pub enum Body {
    /// SCL statements.
    Scl(Vec<Stmt>),
    /// STL instructions.
    Stl(Vec<Instr>),
    /// The values that a data block gives to its fields. A named structure has none.
    Starts(Vec<(Operand, Literal)>),
}

/// The blocks of a source, or of all sources, in their order.
#[derive(Drop)]
pub struct Blocks {
    pub list: Vec<Block>,
}
