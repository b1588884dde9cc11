//! Calls of pv_scl_parse and pv_stl_parse.
ghost use Rattle.std.specs.Prelude.{◌≡◌, ℕ, IsTrue};
ghost use Rattle.pv_lex.specs.declared.token.Language.TheVariants.{Scl, Stl};
ghost use Rattle.pv_lex.specs.Tokens.{AreTokens};
ghost use Rattle.pv_ll.specs.Check.{is_ll1};
ghost use Rattle.pv_ll.specs.Table.{grammar_of};
ghost use Rattle.pv_parse_source.specs.Parsing.{AnswersParse};
ghost use Rattle.pv_scl_parse.specs.SclGrammar.{scl_grammar};
ghost use Rattle.pv_scl_parse.specs.Answers.{AnswersExpression};
ghost use Rattle.pv_stl_parse.specs.StlGrammar.{stl_grammar};

use pv_lex::Token;
use pv_ll::Language;
use pv_parse::ParseFault;
use pv_tree::{Blocks, Expr};
use std::alloc::Global;

/// [`pv_scl_parse::expression`].
pub fn expression(alloc: Global, text: &[u8], tokens: &[Token]) -> Result<Expr, ParseFault>
    requires { (file : ℕ) × AreTokens Scl file text.now tokens.now }
    ensures { AnswersExpression text.now tokens.now result }
{
    pv_scl_parse::expression(alloc, text, tokens)
}

/// [`pv_scl_parse::parse`].
pub fn scl_source(alloc: Global, text: &[u8], tokens: &[Token]) -> Result<Blocks, ParseFault>
    requires { (file : ℕ) × AreTokens Scl file text.now tokens.now }
    ensures { AnswersParse Scl text.now tokens.now result }
{
    pv_scl_parse::parse(alloc, text, tokens)
}

/// [`pv_stl_parse::parse`].
pub fn stl_source(alloc: Global, text: &[u8], tokens: &[Token]) -> Result<Blocks, ParseFault>
    requires { (file : ℕ) × AreTokens Stl file text.now tokens.now }
    ensures { AnswersParse Stl text.now tokens.now result }
{
    pv_stl_parse::parse(alloc, text, tokens)
}

/// [`pv_scl_parse::scl`].
pub fn scl() -> Language
    ensures ll1 { IsTrue (is_ll1 result) }
    ensures grammar { grammar_of result ≡ scl_grammar }
    ensures start { result.start ≡ 34 }
{
    pv_scl_parse::scl()
}

/// [`pv_stl_parse::stl`].
pub fn stl() -> Language
    ensures ll1 { IsTrue (is_ll1 result) }
    ensures grammar { grammar_of result ≡ stl_grammar }
    ensures start { result.start ≡ 34 }
{
    pv_stl_parse::stl()
}
