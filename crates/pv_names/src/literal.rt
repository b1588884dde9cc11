//! The literals that expressions are: with signs and parentheses around them they are literals still.
ghost use Rattle.std.specs.Prelude.{◌≡◌, Some, is_some, option_map};
ghost use Rattle.pv_tree.specs.LiteralTypes as literals;
ghost use Rattle.pv_tree.specs.Types as types;
ghost use Rattle.pv_tree.specs.Rules.OutOfRange as range;
ghost use Rattle.pv_tree.specs.View.{expr_tree};
ghost use Rattle.pv_names.specs.Sorts.{number_value, want_tree};
ghost use Rattle.pv_names.specs.Written.{written_tree};

use crate::operator::is_bool;
use crate::sort::{Number, Want, holds, number_turned, type_of_number};
use crate::typing::first_place;
use pv_place::Place;
use pv_tree::{Expr, UnaryOp};
use pv_word::Ty;

/// A literal as it is written.
#[derive(Clone, Copy)]
pub struct Written {
    pub ty: Option<Ty>,
    pub number: Number,
}

/// Whether the type is BOOL.
fn is_truth(ty: Option<Ty>) -> bool
    ensures { result ≡ types.is_truth ty }
{
    match ty {
        Some(ty) => is_bool(ty),
        None => false,
    }
}

/// A sign before a literal.
fn with_sign(op: UnaryOp, w: Written) -> Option<Written>
    ensures { option_map written_tree result ≡ types.signed op (Some (written_tree w)) }
{
    match op {
        UnaryOp::Plus => { if is_truth(w.ty) { None } else { Some(w) } }
        UnaryOp::Minus => {
            if is_truth(w.ty) {
                None
            } else {
                Some(Written {
                    ty: w.ty,
                    number: number_turned(w.number),
                })
            }
        }
        UnaryOp::Not => None,
    }
}

/// The literal that an expression is.
pub fn literal_of(e: &Expr) -> Option<Written>
    ensures { option_map written_tree result ≡ types.literal_of (expr_tree e.now) }
{
    match e {
        Expr::Lit { ty, value, .. } => Some(Written {
            ty: *ty,
            number: Number {
                negated: false,
                value: *value,
            },
        }),
        Expr::Unary { op, arg, .. } => match literal_of(arg) {
            Some(w) => with_sign(*op, w),
            None => None,
        },
        Expr::Paren(_, inner) => literal_of(inner),
        Expr::Read(_) | Expr::Binary { .. } | Expr::Std { .. } => None,
    }
}

/// Whether an expression is a literal.
pub fn is_literal(e: &Expr) -> bool
    ensures { result ≡ is_some (types.literal_of (expr_tree e.now)) }
{
    match literal_of(e) {
        Some(_) => true,
        None => false,
    }
}

/// The type of a literal that is written with this type or none.
pub fn type_of_literal(want: Want, w: Written) -> Ty
    ensures { result ≡ literals.type_of_literal (want_tree want) w.ty (number_value w.number) }
{
    match w.ty {
        Some(ty) => ty,
        None => type_of_number(want, w.number),
    }
}

/// Whether the type that a literal has by what is wanted of it doesn't hold it.
pub fn is_outside(want: Want, w: Written) -> bool
    ensures { result ≡ range.is_outside (want_tree want) w.ty (number_value w.number) }
{
    !holds(type_of_literal(want, w), w.number)
}
