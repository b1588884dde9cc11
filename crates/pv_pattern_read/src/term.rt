//! Expressions as terms over visible cells.
ghost use Rattle.std.specs.Prelude.{◌≡◌, FitsSigned, IfOk, IfSome, IfNone, unwrap_or};
ghost use Rattle.std.specs.Int.{w64};
ghost use Rattle.pv_word.specs.declared.types.Ty.TheVariants.{Dint};
ghost use Rattle.pv_tree.specs.Sorts as sorts;
ghost use Rattle.pv_tree.specs.View.{expr_tree};
ghost use Rattle.pv_names.specs.InScope.{scope_of};
ghost use Rattle.pv_names.specs.Sorts.{number_value, sort_tree};
ghost use Rattle.pv_mean.specs.Sources.{Source};
ghost use Rattle.pv_mean.specs.Values as values;
ghost use Rattle.pv_resolve.specs.Contexts.{IsContext, block_in};
ghost use Rattle.pv_pattern.specs.declared.term.Term.TheVariants.{Constant};
ghost use Rattle.pv_pattern.specs.Terms.{IsTermOf};
ghost use Rattle.pv_pattern_read.specs.Readable.{HasTermIn};

use crate::making::{binary_term, function_term, unary_term};
use crate::spot::read_term;
use pv_names::{Number, Scope, Sort, literal_of, own_type};
use pv_pattern::Term;
use pv_resolve::Context;
use pv_tree::Expr;
use pv_word::Ty;
use std::alloc::{AllocError, Global};

/// A literal's number with its sign, where 128 bits hold it.
fn signed_value(n: &Number) -> Option<i128>
    ensures value { IfSome result (λ v. v ≡ number_value n.now) }
    ensures none { IfNone result (FitsSigned w64 (number_value n.now) → ⊥) }
{
    if n.negated {
        n.value.checked_neg()
    } else {
        Some(n.value)
    }
}

/// A literal, which 64 bits hold.
fn constant(n: &Number) -> Term
    requires { FitsSigned w64 (number_value n.now) }
    ensures { result ≡ Constant (number_value n.now) }
{
    let Some(value) = signed_value(n) else {
        unreachable!();
    };
    match i64::try_from(value) {
        Ok(v) => Term::Constant(v),
        Err(_) => unreachable!(),
    }
}

/// The type of what is so to the operators around it. What breaks a rule has none, and then it doesn't matter.
fn type_of_sort(sort: Sort) -> Ty
    ensures { result ≡ unwrap_or (sorts.own_type (sort_tree sort)) Dint }
{
    match own_type(sort) {
        Some(ty) => ty,
        None => Ty::Dint,
    }
}

/// The type of an operator's or a function's result.
fn result_type(scope: &Scope, alloc: Global, e: &Expr) -> Result<Ty, AllocError>
    ensures { IfOk result (λ ty. ty ≡ values.result_type (scope_of scope.now) (expr_tree e.now)) }
{
    let sort = scope.sort_of(alloc, e)?;
    Ok(type_of_sort(sort))
}

/// The term that an expression of the entered block is.
#[cycle(making)]
pub(crate) fn term_of(context: &Context, alloc: Global, e: &Expr) -> Result<Term, AllocError>
    requires { HasTermIn context.now (expr_tree e.now) }
    ensures { (source : Source) → IsContext context.now source → block_in context.now ≡ source.entry
        → IfOk result (λ t. IsTermOf source t (expr_tree e.now)) }
{
    match literal_of(e) {
        Some(literal) => Ok(constant(&literal.number)),
        None => match e {
            Expr::Lit { .. } => unreachable!(),
            Expr::Read(operand) => read_term(context, alloc, operand),
            Expr::Unary { op, arg, .. } => {
                let term = term_of(context, alloc, arg)?;
                let ty = result_type(&context.scope, alloc, e)?;
                unary_term(alloc, *op, ty, term)
            }
            Expr::Binary {
                op,
                left,
                right,
                ..
            } => {
                let first = term_of(context, alloc, left)?;
                let second = term_of(context, alloc, right)?;
                let ty = result_type(&context.scope, alloc, e)?;
                binary_term(alloc, *op, ty, first, second)
            }
            Expr::Std { function, args, .. } => {
                let mut terms = Vec::new(alloc);
                for arg in args {
                    let term = term_of(context, alloc, arg)?;
                    terms.push(term)?;
                }
                let ty = result_type(&context.scope, alloc, e)?;
                function_term(alloc, *function, ty, terms)
            }
            Expr::Paren(_, inner) => term_of(context, alloc, inner),
        },
    }
}
