//! What names mean, as the code has it: references into the project's declarations and blocks.
ghost use Rattle.std.specs.Prelude.{◌≡◌};
ghost use Rattle.pv_types.specs.View.{type_tree, var_tree};
ghost use Rattle.pv_tree.specs.Scopes as scopes;
ghost use Rattle.pv_tree.specs.Things as things;
ghost use Rattle.pv_names.specs.Views.{held_tree, thing_tree};

use crate::entry::Entry;
use pv_place::Place;
use pv_types::{DeclType, Name, Section, Var, Vars};
use pv_word::Ty;

/// One level of a type.
#[derive(Clone, Copy)]
pub enum Held<'p> {
    Plain(Ty),
    Array {
        low: i128,
        high: i128,
        of: &'p DeclType,
        place: Place,
    },
    Struct(&'p [Vars]),
    Named(&'p Name, Place),
    Unread,
}

/// What a name means, or why it means nothing.
#[derive(Clone, Copy)]
pub enum Thing<'p> {
    /// What holds a value or values of a type.
    Part(Held<'p>),
    Constant(Held<'p>),
    Block(&'p Entry<'p>),
    /// A name that isn't declared, or a field that is missing.
    NoName(Place),
    /// An index at what is no array.
    NoArray(Place),
    /// A variable of DATE_AND_TIME is used.
    ADate(Place),
    /// What lies in a type that isn't declared, or an address that there isn't.
    Untold,
}

/// A type, level by level.
pub fn level_of(ty: &DeclType) -> Held
    ensures { held_tree result ≡ type_tree ty.now }
{
    match ty {
        DeclType::Plain(ty) => Held::Plain(*ty),
        DeclType::Array {
            low,
            high,
            of,
            place,
        } => Held::Array {
            low: *low,
            high: *high,
            of,
            place: *place,
        },
        DeclType::Struct(vars) => Held::Struct(vars.as_slice()),
        DeclType::Named(name, place) => Held::Named(name, *place),
        DeclType::Unread => Held::Unread,
    }
}

/// Whether a declaration is one of a constant.
pub fn is_const(section: Section) -> bool
    ensures { result ≡ scopes.is_const section }
{
    match section {
        Section::Const => true,
        Section::Input | Section::Output | Section::InOut | Section::Static | Section::Temp =>
            false,
    }
}

/// Whether an instance has variables of this section.
pub(crate) fn is_of_instance(section: Section) -> bool
    ensures { result ≡ scopes.is_of_instance section }
{
    match section {
        Section::Input | Section::Output | Section::InOut | Section::Static => true,
        Section::Temp | Section::Const => false,
    }
}

/// A variable or a constant.
pub(crate) fn thing_of_var<'p>(var: Var<'p>) -> Thing<'p>
    ensures { thing_tree result ≡ things.thing_of_var (var_tree var.entry) }
{
    if is_const(var.of.section) {
        Thing::Constant(level_of(&var.of.ty))
    } else {
        Thing::Part(level_of(&var.of.ty))
    }
}

/// Whether the type is DATE_AND_TIME, or an array of it.
pub fn is_date(ty: &DeclType) -> bool
    ensures { result ≡ things.is_date (type_tree ty.now) }
{
    match ty {
        DeclType::Array { of, .. } => is_date(of),
        DeclType::Unread => true,
        DeclType::Plain(_) | DeclType::Struct(_) | DeclType::Named(..) => false,
    }
}

/// A variable of DATE_AND_TIME, named last at this place, is in use where it is reached.
pub fn dated<'p>(name: Place, thing: Thing<'p>) -> Thing<'p>
    ensures { thing_tree result ≡ things.dated name (thing_tree thing.entry) }
{
    match thing {
        Thing::Part(Held::Unread) => Thing::ADate(name),
        Thing::Part(Held::Array { of, .. }) => {
            if is_date(of) {
                Thing::ADate(name)
            } else {
                thing
            }
        }
        _ => thing,
    }
}

/// The type that an address is read as.
pub fn type_of_bits(bits: u32) -> Ty
    ensures { result ≡ things.type_of_bits bits }
{
    if bits <= 1 {
        Ty::Bool
    } else if bits <= 8 {
        Ty::Byte
    } else if bits <= 16 {
        Ty::Word
    } else {
        Ty::Dword
    }
}

/// Whether all bytes of an address are in its area, and its bit in its byte.
pub fn is_address(bits: u32, byte: u64, bit: u64) -> bool
    ensures { result ≡ things.is_address bits byte bit }
{
    if bit > 7 || byte > 65535 {
        return false;
    }
    let more = if bits == 0 {
        0
    } else {
        u64::from((bits - 1) / 8)
    };
    byte + more <= 65535
}
