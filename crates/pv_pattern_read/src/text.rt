//! Texts as expressions.
ghost use Rattle.std.specs.Prelude.{◌≤◌, length, IfOk, IfSome, IfNone};
ghost use Rattle.pv_lex.specs.declared.lex.TheConstants.{MAX_SOURCE};
ghost use Rattle.pv_lex.specs.Tokens.{AreTokens};
ghost use Rattle.pv_lex.specs.declared.token.Language.TheVariants.{Scl as In_scl};
ghost use Rattle.pv_tree.specs.Lexemes.{lexemes_of};
ghost use Rattle.pv_tree.specs.Reading.{IsReadExpression};
ghost use Rattle.pv_tree.specs.Tree.{ExprTree};
ghost use Rattle.pv_tree.specs.View.{expr_tree};
ghost use Rattle.pv_pattern.specs.Texts.{IsTextOf};

use crate::laws::tokens_read_as_one_expression;
use pv_lex::{Language, LexFault, Token, tokens};
use pv_scl_parse::{ParseFault, expression};
use pv_tree::Expr;
use std::alloc::{AllocError, Global};

/// The expression that a text is, where it is one.
pub(crate) fn expression_of(alloc: Global, text: &str) -> Result<Option<Expr>, AllocError>
    requires { length text.now ≤ MAX_SOURCE }
    ensures found { IfOk result (λ o. IfSome o (λ e. IsTextOf text.now (expr_tree e))) }
    ensures none { IfOk result (λ o. IfNone o ((e : ExprTree) → IsTextOf text.now e → ⊥)) }
{
    match tokens(alloc, 0, Language::Scl, text.as_bytes()) {
        Ok(tokens) => expression_among(alloc, text.as_bytes(), tokens.as_slice()),
        Err(LexFault::NoToken { .. }) => Ok(None),
        Err(LexFault::NoMemory) => Err(AllocError),
    }
}

/// The expression that the tokens of a text read as.
fn expression_among(
    alloc: Global,
    text: &[u8],
    tokens: &[Token],
) -> Result<Option<Expr>, AllocError>
    requires { AreTokens In_scl 0 text.now tokens.now }
    ensures found { IfOk result (λ o. IfSome o (λ e. IsReadExpression (lexemes_of text.now tokens.now) (expr_tree e))) }
    ensures none { IfOk result (λ o. IfNone o ((e : ExprTree) → IsReadExpression (lexemes_of text.now tokens.now) e → ⊥)) }
{
    tokens_read_as_one_expression();
    match expression(alloc, text, tokens) {
        Ok(tree) => Ok(Some(tree)),
        Err(ParseFault::Outside { .. }) => Ok(None),
        Err(ParseFault::Syntax { .. }) => Ok(None),
        Err(ParseFault::Deep { .. }) => Ok(None),
        Err(ParseFault::NoMemory) => Err(AllocError),
    }
}
