//! The types that operators and standard functions take and give, by the sorts of their operands.
ghost use Rattle.std.specs.Prelude.{◌≡◌, ◌||◌, map};
ghost use Rattle.std.specs.List.{list_any};
ghost use Rattle.pv_tree.specs.Sorts as sorts;
ghost use Rattle.pv_names.specs.Sorts.{sort_tree, want_tree};
ghost use Rattle.pv_names.specs.Widest.{widest_step, gathered, widest_type, type_in};

use crate::sort::{
    Sort, Want, is_at_least, is_at_most, is_untold, is_whole_number, own_type, taken, wider,
};
use pv_tree::{BinaryOp, UnaryOp};
use pv_word::Ty;

/// The type to which all types so far widen: there is none yet, there is none, or it is this.
#[derive(Clone, Copy)]
pub(crate) enum Widest {
    Empty,
    Clash,
    Of(Ty),
}

/// The widest type with one type more.
fn widest_with(ty: Ty, widest: Widest) -> Widest
    ensures { result ≡ widest_step ty widest }
{
    match widest {
        Widest::Empty => Widest::Of(ty),
        Widest::Clash => Widest::Clash,
        Widest::Of(other) => match wider(ty, other) {
            Some(both) => Widest::Of(both),
            None => Widest::Clash,
        },
    }
}

/// The type of a part, by itself or by what is wanted of it.
fn type_of_part(want: Option<Want>, sort: Sort) -> Option<Ty>
    ensures { result ≡ type_in want (sort_tree sort) }
{
    match want {
        Some(want) => own_type(taken(want, sort)),
        None => own_type(sort),
    }
}

/// The type to which all parts widen that have a type.
fn gather(want: Option<Want>, parts: &[Sort]) -> Widest
    ensures { result ≡ gathered want (map sort_tree parts.now) }
{
    let mut widest = Widest::Empty;
    let mut i = parts.len();
    while i > 0 {
        i -= 1;
        if let Some(ty) = type_of_part(want, parts[i]) {
            widest = widest_with(ty, widest);
        }
    }
    widest
}

/// The type, where there is one.
fn type_of_widest(widest: Widest) -> Option<Ty>
    ensures { result ≡ widest_type widest }
{
    match widest {
        Widest::Of(ty) => Some(ty),
        Widest::Empty | Widest::Clash => None,
    }
}

/// Whether a part has no type, also where one is wanted.
fn has_untold(parts: &[Sort]) -> bool
    ensures { result ≡ list_any (λ s. sorts.is_whole s || sorts.is_broken s) (map sort_tree parts.now) }
{
    for part in parts {
        if is_untold(*part) {
            return true;
        }
    }
    false
}

/// What the operands of one operator want of a literal among them.
pub fn wanted_beside(parts: &[Sort]) -> Want
    ensures { want_tree result ≡ sorts.wanted_beside (map sort_tree parts.now) }
{
    if has_untold(parts) {
        return Want::Unsure;
    }
    match type_of_widest(gather(None, parts)) {
        Some(ty) => Want::This(ty),
        None => Want::Nothing,
    }
}

/// The type to which all parts widen, where this is wanted of each.
pub fn common_type(want: Want, parts: &[Sort]) -> Option<Ty>
    ensures { result
        ≡ sorts.common_type (map (sorts.taken (want_tree want)) (map sort_tree parts.now)) }
{
    if has_untold(parts) {
        return None;
    }
    type_of_widest(gather(Some(want), parts))
}

/// Whether AND, OR, XOR and NOT take the type.
fn has_pattern(ty: Ty) -> bool
    ensures { result ≡ sorts.has_pattern ty }
{
    match ty {
        Ty::Bool | Ty::Byte | Ty::Word | Ty::Dword => true,
        Ty::Int | Ty::Dint | Ty::Time => false,
    }
}

/// Whether SHL and SHR shift the type.
pub(crate) fn is_shifted(ty: Ty) -> bool
    ensures { result ≡ sorts.is_shifted ty }
{
    match ty {
        Ty::Byte | Ty::Word | Ty::Dword => true,
        Ty::Bool | Ty::Int | Ty::Dint | Ty::Time => false,
    }
}

/// Whether the type is BOOL.
pub fn is_bool(ty: Ty) -> bool
    ensures { result ≡ sorts.is_bool ty }
{
    match ty {
        Ty::Bool => true,
        Ty::Byte | Ty::Word | Ty::Dword | Ty::Int | Ty::Dint | Ty::Time => false,
    }
}

/// Whether sums and differences take the type.
fn adds(ty: Ty) -> bool
    ensures { result ≡ sorts.adds ty }
{
    match ty {
        Ty::Int | Ty::Dint | Ty::Time => true,
        Ty::Bool | Ty::Byte | Ty::Word | Ty::Dword => false,
    }
}

/// The type, where the test passes.
pub(crate) fn type_where(test: bool, ty: Ty) -> Option<Ty>
    ensures { result ≡ sorts.type_where (λ ty. test) ty }
{
    if test { Some(ty) } else { None }
}

/// The type of a result by the operand's type, where the operator takes that.
pub(crate) fn result_of_unary(op: UnaryOp, ty: Ty) -> Option<Ty>
    ensures { result ≡ sorts.result_of_unary op ty }
{
    match op {
        UnaryOp::Plus | UnaryOp::Minus => type_where(is_whole_number(ty), ty),
        UnaryOp::Not => type_where(has_pattern(ty), ty),
    }
}

/// The type of a result by the operands' type, where the operator takes that.
pub fn result_of_binary(op: BinaryOp, ty: Ty) -> Option<Ty>
    ensures { result ≡ sorts.result_of_binary op ty }
{
    match op {
        BinaryOp::Mul | BinaryOp::Div | BinaryOp::Mod => type_where(is_whole_number(ty), ty),
        BinaryOp::Add | BinaryOp::Sub => type_where(adds(ty), ty),
        BinaryOp::Less | BinaryOp::Greater | BinaryOp::LessEqual | BinaryOp::GreaterEqual => {
            type_where(!is_bool(ty), Ty::Bool)
        }
        BinaryOp::Equal | BinaryOp::NotEqual => Some(Ty::Bool),
        BinaryOp::And | BinaryOp::Xor | BinaryOp::Or => type_where(has_pattern(ty), ty),
    }
}

/// Whether the part is a count of bits to shift by.
pub(crate) fn is_count(part: Sort) -> bool
    ensures { result ≡ sorts.is_count (sort_tree part) }
{
    match part {
        Sort::Typed(ty, n) => {
            (is_whole_number(ty) || is_shifted(ty)) && (is_at_least(0, n) && is_at_most(n, 32))
        }
        Sort::Untyped(_) | Sort::One(_) | Sort::Whole | Sort::Broken => false,
    }
}
