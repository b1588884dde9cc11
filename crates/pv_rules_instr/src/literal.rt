//! Literals behind instructions, each by itself: which an instruction doesn't take, and which lie outside their types.
ghost use Rattle.std.specs.Prelude.{◌≡◌};
ghost use Rattle.pv_tree.specs.LiteralTypes as literals;
ghost use Rattle.pv_tree.specs.LiteralTypes.{this};
ghost use Rattle.pv_tree.specs.Sorts as sorts;
ghost use Rattle.pv_tree.specs.Rules.Behind as behind;
ghost use Rattle.pv_tree.specs.Rules.OutOfRange as range;
ghost use Rattle.pv_names.specs.Written.{written_tree};
ghost use Rattle.pv_rules_instr.specs.AtOperands.{literal_at, outside_literal_at};
ghost use Rattle.pv_rules_instr.specs.Groups.{group_tree};

use crate::group::Group;
use pv_names::{Number, Want, Written, holds, is_bool, is_outside, type_of_literal, widens};
use pv_place::Place;
use pv_rules_expr::where_is;
use pv_types::Literal;
use pv_word::Ty;

/// A literal as it is written.
fn written(literal: &Literal) -> Written
    ensures { written_tree result ≡ record { ty = literal.now.ty; value = literal.now.value } }
{
    Written {
        ty: literal.ty,
        number: Number {
            negated: false,
            value: literal.value,
        },
    }
}

/// Whether L takes a literal: one without a type as an INT, and one of any type but BOOL.
fn is_loaded(literal: &Literal) -> bool
    ensures { result ≡ behind.is_loaded literal.now.ty literal.now.value }
{
    match literal.ty {
        Some(ty) => !is_bool(ty),
        None => holds(Ty::Int, written(literal).number),
    }
}

/// Whether a literal, which takes this type where it has none, fits it.
fn fits_word(ty: Ty, literal: &Literal) -> bool
    ensures { result ≡ sorts.widens (literals.type_of_literal (this ty) literal.now.ty
        literal.now.value) ty }
{
    widens(type_of_literal(Want::This(ty), written(literal)), ty)
}

/// Whether a literal has no type and lies within the bounds.
fn is_number_within(low: i128, high: i128, literal: &Literal) -> bool
    ensures { result ≡ behind.is_number_within low high literal.now.ty literal.now.value }
{
    match literal.ty {
        Some(_) => false,
        None => low <= literal.value && literal.value <= high,
    }
}

/// Whether an instruction of the group takes the literal.
fn takes_literal(group: Group, literal: &Literal) -> bool
    ensures { result ≡ behind.takes_literal (group_tree group) literal.now.ty literal.now.value }
{
    match group {
        Group::Load => is_loaded(literal),
        Group::WordLogic => fits_word(Ty::Word, literal),
        Group::DoubleLogic => fits_word(Ty::Dword, literal),
        Group::WordShift => is_number_within(0, 15, literal),
        Group::DoubleShift => is_number_within(0, 31, literal),
        Group::NoOperation => is_number_within(0, 1, literal),
        Group::Display => literal.ty.is_none(),
        Group::BitRead
        | Group::BitWritten
        | Group::Transfer
        | Group::Jump
        | Group::Opening
        | Group::Closing
        | Group::BlockEnd
        | Group::Calling
        | Group::Alone => false,
    }
}

/// Whether a literal behind L isn't held by its type: INT where it has none.
fn is_outside_load(literal: &Literal) -> bool
    ensures { result ≡ range.is_outside_load literal.now.ty literal.now.value }
{
    match literal.ty {
        Some(ty) => !holds(ty, written(literal).number),
        None => !holds(Ty::Int, written(literal).number),
    }
}

/// Whether a literal behind an instruction of the group isn't held by its type.
fn is_outside_behind(group: Group, literal: &Literal) -> bool
    ensures { result ≡ range.is_outside_behind (group_tree group) literal.now.ty
        literal.now.value }
{
    match group {
        Group::Load => is_outside_load(literal),
        Group::WordLogic => is_outside(Want::This(Ty::Word), written(literal)),
        Group::DoubleLogic => is_outside(Want::This(Ty::Dword), written(literal)),
        Group::WordShift
        | Group::DoubleShift
        | Group::NoOperation
        | Group::Display
        | Group::BitRead
        | Group::BitWritten
        | Group::Transfer
        | Group::Jump
        | Group::Opening
        | Group::Closing
        | Group::BlockEnd
        | Group::Calling
        | Group::Alone => is_outside(Want::Nothing, written(literal)),
    }
}

/// The place of a literal that an instruction of the group doesn't take.
pub(crate) fn literal_place(group: Group, literal: &Literal) -> Option<Place>
    ensures { result ≡ literal_at (group_tree group) literal.now }
{
    where_is(!takes_literal(group, literal), literal.place)
}

/// The place of a literal behind an instruction of the group that is outside its type.
pub(crate) fn outside_literal(group: Group, literal: &Literal) -> Option<Place>
    ensures { result ≡ outside_literal_at (group_tree group) literal.now }
{
    where_is(is_outside_behind(group, literal), literal.place)
}
