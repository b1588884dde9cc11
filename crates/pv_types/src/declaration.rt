//! Declarations of variables, and the types that they give.

use crate::name::Name;
use pv_place::Place;
use pv_word::Ty;

/// The type of a declaration.
#[derive(Drop)]
#[cycle(declaration)]
pub enum DeclType {
    /// A simple type.
    Plain(Ty),
    /// An array of one dimension: its bounds, the type of its elements, and the place of the word
    /// ARRAY.
    Array {
        low: i128,
        high: i128,
        of: Box<DeclType>,
        place: Place,
    },
    /// A structure with its fields.
    Struct(Vec<Vars>),
    /// A function block's or a named structure's type, with the place of its name.
    Named(Name, Place),
    /// DATE_AND_TIME, whose variables nothing reads.
    Unread,
}

/// Variables that are declared at once: their names, each with its place, share the type, and the
/// start value where one is written.
///
/// So what is declared is never larger than its text times a constant, however many names share a
/// structure in which others share one. Definitions list the variables one by one.
#[derive(Drop)]
#[cycle(declaration)]
pub struct Vars {
    pub names: Vec<(Name, Place)>,
    /// The section of the declaration; a structure's fields have that of the declaration around
    /// them.
    pub section: Section,
    pub ty: DeclType,
    pub start: Option<Literal>,
}

/// The kind of a variable.
#[derive(Clone, Copy, PartialEq, Eq, Debug)]
pub enum Section {
    /// VAR_INPUT.
    Input,
    /// VAR_OUTPUT.
    Output,
    /// VAR_IN_OUT.
    InOut,
    /// VAR.
    Static,
    /// VAR_TEMP.
    Temp,
    /// CONST.
    Const,
}

/// A literal: its type where it has one of its own, its value, and its first token's place.
#[derive(Clone, Copy, PartialEq, Eq, Debug)]
pub struct Literal {
    pub value: i128,
    pub ty: Option<Ty>,
    pub place: Place,
}

// A literal's bytes.
const _: () = prove!(size_of::<Literal>() <= 32);

/// The variables of a block in the order of their declarations, and the type of the value that a
/// function has.
#[derive(Drop)]
pub struct Interface {
    pub vars: Vec<Vars>,
    pub value: Option<Ty>,
}
