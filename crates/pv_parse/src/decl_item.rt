//! Parts of declarations and blocks, as they lie on the stack.

use pv_place::Place;
use pv_tree::{Block, Body, Operand};
use pv_types::{DeclType, Literal, Name, Section, Vars};
use pv_word::Ty;

/// Variables of one section.
#[derive(Drop)]
pub struct Fields {
    pub section: Section,
    pub vars: Vec<Vars>,
}

/// The bounds of an array, and the place of the word ARRAY.
#[derive(Clone, Copy)]
pub struct Bounds {
    pub low: i128,
    pub high: i128,
    pub place: Place,
}

/// What stands in a block before its body: its name with the place of the name's first token, its
/// variables so far, the type of its value, and what a data block is of.
#[derive(Drop)]
pub struct Heading {
    pub name: Name,
    pub place: Place,
    pub vars: Vec<Vars>,
    pub value: Option<Ty>,
    pub of: Option<(Name, Place)>,
}

/// A part of a declaration or of a block. What is large lies in a box, so that no other part takes its room.
#[derive(Drop)]
pub enum DeclItem {
    /// A name that stands alone, with the place of its first token.
    Name(Name, Place),
    /// The words of a declaration so far.
    Words(Vec<(Name, Place)>),
    /// The section that a type to come stands in.
    Around(Section),
    /// The variables of a section or a structure so far.
    Fields(Fields),
    /// The type of a declaration.
    Typed(Box<DeclType>),
    /// A start value, where one is written.
    Start(Option<Literal>),
    /// The bounds of an array whose elements' type is still to come.
    Bounds(Bounds),
    /// A block before its body.
    Heading(Box<Heading>),
    /// The body of a block with code.
    Body(Body),
    /// The values of a data block so far.
    Values(Vec<(Operand, Literal)>),
    /// The blocks of a source so far.
    Blocks(Vec<Block>),
}
