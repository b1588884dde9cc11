//! What an expression is to the operators around it.
ghost use Rattle.std.specs.Prelude.{◌≡◌, ◌||◌, int_le, neg_ℤ};
ghost use Rattle.pv_tree.specs.LiteralTypes as literals;
ghost use Rattle.pv_tree.specs.Sorts as sorts;
ghost use Rattle.pv_tree.specs.Types as types;
ghost use Rattle.pv_names.specs.Sorts.{number_value, sort_tree, want_tree};

use pv_word::{Ty, greatest, least};

/// A whole number, as a value and whether a sign turns it round.
#[derive(Clone, Copy)]
pub struct Number {
    pub negated: bool,
    pub value: i128,
}

/// What is wanted of an expression: nothing, a type, or what can't be told.
#[derive(Clone, Copy)]
pub enum Want {
    Nothing,
    This(Ty),
    Unsure,
}

/// What an expression is: a literal without a type or with one, another value of a type, a whole array, structure, instance
/// or block, or what has no type since something breaks a rule.
#[derive(Clone, Copy)]
pub enum Sort {
    Untyped(Number),
    Typed(Ty, Number),
    One(Ty),
    Whole,
    Broken,
}

/// Whether the number is at least this.
pub(crate) fn is_at_least(low: i128, n: Number) -> bool
    ensures { result ≡ int_le low (number_value n) }
{
    if !n.negated {
        return low <= n.value;
    }
    match n.value.checked_neg() {
        Some(value) => low <= value,
        None => true,
    }
}

/// Whether the number is at most this.
pub(crate) fn is_at_most(n: Number, high: i128) -> bool
    ensures { result ≡ int_le (number_value n) high }
{
    if !n.negated {
        return n.value <= high;
    }
    match n.value.checked_neg() {
        Some(value) => value <= high,
        None => false,
    }
}

/// Whether the number is a value of the type.
pub fn holds(ty: Ty, n: Number) -> bool
    ensures { result ≡ literals.holds ty (number_value n) }
{
    is_at_least(least(ty), n) && is_at_most(n, greatest(ty))
}

/// Whether a literal without a type may take the type.
fn takes_literals(ty: Ty) -> bool
    ensures { result ≡ literals.takes_literals ty }
{
    match ty {
        Ty::Bool | Ty::Time => false,
        Ty::Byte | Ty::Word | Ty::Dword | Ty::Int | Ty::Dint => true,
    }
}

/// Whether the type is INT or DINT.
pub fn is_whole_number(ty: Ty) -> bool
    ensures { result ≡ literals.is_whole_number ty }
{
    match ty {
        Ty::Int | Ty::Dint => true,
        Ty::Bool | Ty::Byte | Ty::Word | Ty::Dword | Ty::Time => false,
    }
}

/// The type of a literal without one that nothing is wanted of.
fn type_alone(n: Number) -> Ty
    ensures { result ≡ literals.type_alone (number_value n) }
{
    if holds(Ty::Int, n) { Ty::Int } else { Ty::Dint }
}

/// The type of a literal without one, by what is wanted of it.
pub(crate) fn type_of_number(want: Want, n: Number) -> Ty
    ensures { result ≡ literals.type_of_number (want_tree want) (number_value n) }
{
    match want {
        Want::Nothing => type_alone(n),
        Want::This(ty) => {
            if takes_literals(ty) && holds(ty, n) {
                ty
            } else {
                type_alone(n)
            }
        }
        Want::Unsure => {
            if holds(Ty::Dword, n) {
                Ty::Dword
            } else {
                type_alone(n)
            }
        }
    }
}

/// The type that a part has by itself.
pub fn own_type(sort: Sort) -> Option<Ty>
    ensures { result ≡ sorts.own_type (sort_tree sort) }
{
    match sort {
        Sort::Typed(ty, _) | Sort::One(ty) => Some(ty),
        Sort::Untyped(_) | Sort::Whole | Sort::Broken => None,
    }
}

/// A literal without a type takes one by what is wanted of it.
pub fn taken(want: Want, sort: Sort) -> Sort
    ensures { sort_tree result ≡ sorts.taken (want_tree want) (sort_tree sort) }
{
    match sort {
        Sort::Untyped(n) => Sort::Typed(type_of_number(want, n), n),
        Sort::Typed(..) | Sort::One(_) | Sort::Whole | Sort::Broken => sort,
    }
}

/// A value of this type, or what breaks a rule where there is no type.
pub fn one_of(ty: Option<Ty>) -> Sort
    ensures { sort_tree result ≡ sorts.one_of ty }
{
    match ty {
        Some(ty) => Sort::One(ty),
        None => Sort::Broken,
    }
}

/// A literal as it is written.
pub fn sort_of_written(ty: Option<Ty>, n: Number) -> Sort
    ensures { sort_tree result ≡ types.sort_of_written ty (number_value n) }
{
    match ty {
        Some(ty) => Sort::Typed(ty, n),
        None => Sort::Untyped(n),
    }
}

/// Whether a value of the first type stands where one of the second is wanted.
pub fn widens(from: Ty, to: Ty) -> bool
    ensures { result ≡ sorts.widens from to }
{
    match from {
        Ty::Bool => matches!(to, Ty::Bool),
        Ty::Byte => matches!(to, Ty::Byte | Ty::Word | Ty::Dword),
        Ty::Word => matches!(to, Ty::Word | Ty::Dword),
        Ty::Dword => matches!(to, Ty::Dword),
        Ty::Int => matches!(to, Ty::Int | Ty::Dint),
        Ty::Dint => matches!(to, Ty::Dint),
        Ty::Time => matches!(to, Ty::Time),
    }
}

/// The one of two types to which the other widens.
pub(crate) fn wider(a: Ty, b: Ty) -> Option<Ty>
    ensures { result ≡ sorts.wider a b }
{
    if widens(a, b) {
        Some(b)
    } else if widens(b, a) {
        Some(a)
    } else {
        None
    }
}

/// Whether the part has no type, also where it takes one.
pub(crate) fn is_untold(sort: Sort) -> bool
    ensures { result ≡ (sorts.is_whole (sort_tree sort) || sorts.is_broken (sort_tree sort)) }
{
    match sort {
        Sort::Whole | Sort::Broken => true,
        Sort::Untyped(_) | Sort::Typed(..) | Sort::One(_) => false,
    }
}

/// The number behind a minus.
pub(crate) fn number_turned(n: Number) -> Number
    ensures { number_value result ≡ neg_ℤ (number_value n) }
{
    Number {
        negated: !n.negated,
        value: n.value,
    }
}
