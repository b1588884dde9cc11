//! What a text says of a scan, or how it is at fault.
ghost use Rattle.std.specs.Prelude.{◌≡◌, ◌↔◌, ◌≤◌, length, Some, IfOk, IsTrue};
ghost use Rattle.pv_word.specs.declared.types.Ty.TheVariants.{Bool as A_bool};
ghost use Rattle.pv_lex.specs.declared.lex.TheConstants.{MAX_SOURCE};
ghost use Rattle.pv_tree.specs.View.{expr_tree};
ghost use Rattle.pv_tree.specs.LiteralTypes.{nothing};
ghost use Rattle.pv_tree.specs.Types.{type_of};
ghost use Rattle.pv_names.specs.InScope.{scope_of};
ghost use Rattle.pv_pattern.specs.Texts as texts;
ghost use Rattle.pv_pattern_read.specs.Answers.{AnswersText, AnswersExpr};

use crate::brief::one_is_brief;
use crate::fault::TextFault;
use crate::operands::operands_in;
use crate::text::expression_of;
use pv_names::{Scope, Want, is_bool};
use pv_rules_decl::pattern_breach;
use pv_tree::Expr;
use pv_word::Ty;
use std::alloc::{AllocError, Global};

/// The expression that a text is over the names of a block, where it keeps the rules on patterns, reads no brief cell and is BOOL.
///
/// Else the first of these, in the order of `TextFault`, that isn't so.
pub fn said(scope: &Scope, alloc: Global, text: &str) -> Result<Expr, TextFault>
    requires { length text.now ≤ MAX_SOURCE }
    ensures { AnswersText (scope_of scope.now) text.now result }
{
    let Some(e) = expression_of(alloc, text)? else {
        return Err(TextFault::Unread);
    };
    match asked(scope, alloc, &e) {
        Ok(()) => Ok(e),
        Err(fault) => Err(fault),
    }
}

/// Whether an expression says something of a scan.
fn asked(scope: &Scope, alloc: Global, e: &Expr) -> Result<(), TextFault>
    ensures { AnswersExpr (scope_of scope.now) (expr_tree e.now) result }
{
    if let Some(breach) = pattern_breach(scope, alloc, e)? {
        return Err(TextFault::Broken(breach.rule));
    }
    if reads_brief(scope, alloc, e)? {
        return Err(TextFault::BriefCell);
    }
    if is_truth(scope, alloc, e)? {
        Ok(())
    } else {
        Err(TextFault::NotBool)
    }
}

/// Whether an expression reads a variable that lives for one activation, or a part of one.
fn reads_brief(scope: &Scope, alloc: Global, e: &Expr) -> Result<bool, AllocError>
    ensures { IfOk result (λ b. b ≡ texts.reads_brief (scope_of scope.now) (expr_tree e.now)) }
{
    let operands = operands_in(alloc, e)?;
    Ok(one_is_brief(scope, operands.as_slice()))
}

/// Whether a type is BOOL.
fn is_bool_type(ty: Option<Ty>) -> bool
    ensures { IsTrue result ↔ (ty ≡ Some A_bool) }
{
    match ty {
        Some(ty) => is_bool(ty),
        None => false,
    }
}

/// Whether an expression is BOOL.
fn is_truth(scope: &Scope, alloc: Global, e: &Expr) -> Result<bool, AllocError>
    ensures { IfOk result (λ b. IsTrue b
        ↔ (type_of (scope_of scope.now) nothing (expr_tree e.now) ≡ Some A_bool)) }
{
    let ty = scope.type_of(alloc, Want::Nothing, e)?;
    Ok(is_bool_type(ty))
}
