//! Terms of terms: operators and standard functions.
ghost use Rattle.std.specs.Prelude.{◌≡◌, ◌∷◌, [], IfOk, IsTrue, None, is_some, length};
ghost use Rattle.pv_place.specs.declared.place.Place.{Place as PlaceOf};
ghost use Rattle.pv_tree.specs.Tree.{ExprTree, ExprTrees, unary, binary, std};
ghost use Rattle.pv_tree.specs.Types.{literal_of};
ghost use Rattle.pv_mean.specs.Sources.{Source};
ghost use Rattle.pv_mean.specs.Scans.{entry_activation};
ghost use Rattle.pv_mean.specs.Activations.{scope_in};
ghost use Rattle.pv_mean.specs.Values.{result_type};
ghost use Rattle.pv_pattern.specs.Terms.{IsTermOf};
ghost use Rattle.pv_resolve.specs.Functions.{arity};
ghost use Rattle.pv_pattern_read.specs.Making.{kept_two, IsOne, IsTwo, IsThree, OfOne, OfTwo, OfThree, AreTermsOf};

use pv_eval::{OneOp, ThreeOp, TwoOp};
use pv_pattern::Term;
use pv_tree::{BinaryOp, StdFunction, UnaryOp};
use pv_word::Ty;
use std::alloc::{AllocError, Global};

pub(crate) fn one(alloc: Global, op: OneOp, ty: Ty, arg: Term) -> Result<Term, AllocError>
    ensures { IfOk result (IsOne op ty arg) }
{
    let arg = Box::new(alloc, arg)?;
    Ok(Term::One { op, ty, arg })
}

fn two(alloc: Global, op: TwoOp, ty: Ty, left: Term, right: Term) -> Result<Term, AllocError>
    ensures { IfOk result (IsTwo op ty left right) }
{
    let left = Box::new(alloc, left)?;
    let right = Box::new(alloc, right)?;
    Ok(Term::Two {
        op,
        ty,
        left,
        right,
    })
}

fn three(
    alloc: Global,
    op: ThreeOp,
    first: Term,
    second: Term,
    third: Term,
) -> Result<Term, AllocError>
    ensures { IfOk result (IsThree op first second third) }
{
    let first = Box::new(alloc, first)?;
    let second = Box::new(alloc, second)?;
    let third = Box::new(alloc, third)?;
    Ok(Term::Three {
        op,
        first,
        second,
        third,
    })
}

/// An operator before its operand, which is no literal with it.
pub(crate) fn unary_term(alloc: Global, op: UnaryOp, ty: Ty, arg: Term) -> Result<Term, AllocError>
    ensures { (source : Source) (place : PlaceOf) (inner : ExprTree)
        → literal_of (unary op place inner) ≡ None
        → ty ≡ result_type (scope_in source (entry_activation source)) (unary op place inner)
        → IsTermOf source arg inner
        → IfOk result (λ t. IsTermOf source t (unary op place inner)) }
{
    match op {
        UnaryOp::Plus => Ok(arg),
        UnaryOp::Minus => one(alloc, OneOp::Minus, ty, arg),
        UnaryOp::Not => one(alloc, OneOp::Not, ty, arg),
    }
}

/// The operators that don't divide.
fn two_of(op: BinaryOp) -> Option<TwoOp>
    ensures { result ≡ kept_two op }
{
    match op {
        BinaryOp::Div | BinaryOp::Mod => None,
        BinaryOp::Mul => Some(TwoOp::Mul),
        BinaryOp::Add => Some(TwoOp::Add),
        BinaryOp::Sub => Some(TwoOp::Sub),
        BinaryOp::Less => Some(TwoOp::Less),
        BinaryOp::Greater => Some(TwoOp::Greater),
        BinaryOp::LessEqual => Some(TwoOp::LessEqual),
        BinaryOp::GreaterEqual => Some(TwoOp::GreaterEqual),
        BinaryOp::Equal => Some(TwoOp::Equal),
        BinaryOp::NotEqual => Some(TwoOp::NotEqual),
        BinaryOp::And => Some(TwoOp::And),
        BinaryOp::Xor => Some(TwoOp::Xor),
        BinaryOp::Or => Some(TwoOp::Or),
    }
}

/// An operator between its operands, which doesn't divide.
pub(crate) fn binary_term(
    alloc: Global,
    op: BinaryOp,
    ty: Ty,
    left: Term,
    right: Term,
) -> Result<Term, AllocError>
    requires { IsTrue (is_some (kept_two op)) }
    ensures { (source : Source) (place : PlaceOf) (l r : ExprTree)
        → ty ≡ result_type (scope_in source (entry_activation source)) (binary op place l r)
        → IsTermOf source left l → IsTermOf source right r
        → IfOk result (λ t. IsTermOf source t (binary op place l r)) }
{
    match two_of(op) {
        Some(op) => two(alloc, op, ty, left, right),
        None => unreachable!(),
    }
}

/// The only one of some terms.
pub(crate) fn only(terms: Vec<Term>) -> Term
    requires { length terms.items ≡ 1 }
    ensures { terms.items ≡ result ∷ [] }
{
    let mut terms = terms;
    match terms.pop() {
        Some(arg) => arg,
        None => unreachable!(),
    }
}

/// The two that some terms are.
pub(crate) fn pair(terms: Vec<Term>) -> (Term, Term)
    requires { length terms.items ≡ 2 }
    ensures { terms.items ≡ result.0 ∷ result.1 ∷ [] }
{
    let mut terms = terms;
    match terms.pop() {
        Some(right) => (only(terms), right),
        None => unreachable!(),
    }
}

/// The three that some terms are.
pub(crate) fn triple(terms: Vec<Term>) -> (Term, Term, Term)
    requires { length terms.items ≡ 3 }
    ensures { terms.items ≡ result.0 ∷ result.1 ∷ result.2 ∷ [] }
{
    let mut terms = terms;
    match terms.pop() {
        Some(third) => {
            let (first, second) = pair(terms);
            (first, second, third)
        }
        None => unreachable!(),
    }
}

fn of_one(alloc: Global, op: OneOp, ty: Ty, terms: Vec<Term>) -> Result<Term, AllocError>
    requires { length terms.items ≡ 1 }
    ensures { IfOk result (OfOne op ty terms.items) }
{
    let arg = only(terms);
    one(alloc, op, ty, arg)
}

fn of_two(alloc: Global, op: TwoOp, ty: Ty, terms: Vec<Term>) -> Result<Term, AllocError>
    requires { length terms.items ≡ 2 }
    ensures { IfOk result (OfTwo op ty terms.items) }
{
    let (left, right) = pair(terms);
    two(alloc, op, ty, left, right)
}

fn of_three(alloc: Global, op: ThreeOp, terms: Vec<Term>) -> Result<Term, AllocError>
    requires { length terms.items ≡ 3 }
    ensures { IfOk result (OfThree op terms.items) }
{
    let (first, second, third) = triple(terms);
    three(alloc, op, first, second, third)
}

/// A standard function of its arguments, which are as many as it takes.
pub(crate) fn function_term(
    alloc: Global,
    function: StdFunction,
    ty: Ty,
    terms: Vec<Term>,
) -> Result<Term, AllocError>
    requires { length terms.items ≡ arity function }
    ensures { (source : Source) (place : PlaceOf) (args : ExprTrees)
        → ty ≡ result_type (scope_in source (entry_activation source)) (std function place args)
        → AreTermsOf source terms.items args
        → IfOk result (λ t. IsTermOf source t (std function place args)) }
{
    match function {
        StdFunction::Convert(_, to) => of_one(alloc, OneOp::Wrap, to, terms),
        StdFunction::Abs => of_one(alloc, OneOp::Abs, ty, terms),
        StdFunction::Min => of_two(alloc, TwoOp::Min, ty, terms),
        StdFunction::Max => of_two(alloc, TwoOp::Max, ty, terms),
        StdFunction::Limit => of_three(alloc, ThreeOp::Limit, terms),
        StdFunction::Sel => of_three(alloc, ThreeOp::Sel, terms),
        StdFunction::Shl => of_two(alloc, TwoOp::Shl, ty, terms),
        StdFunction::Shr => of_two(alloc, TwoOp::Shr, ty, terms),
    }
}
