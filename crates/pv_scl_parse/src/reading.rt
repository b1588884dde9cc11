//! Expressions, as those of patterns.
ghost use Rattle.std.specs.Prelude.{◌≡◌, ◌<◌, ◌≤◌, ◌++◌, ◌∷◌, [], ℕ, List, length, IfOk, get_or, false};
ghost use Rattle.pv_lex.specs.declared.token.Token.{Token as A_token};
ghost use Rattle.pv_lex.specs.declared.token.Language.TheVariants.{Scl};
ghost use Rattle.pv_lex.specs.Tokens.{AreTokens};
ghost use Rattle.pv_scl_parse.specs.Answers.{AnswersExpression};

use crate::actions::scl_actions;
use crate::table::scl_expression;
use pv_lex::{Language, Token};
use pv_parse::{ParseFault, ReadFault, first_outside};
use pv_parse_source::read_expression;
use pv_tree::Expr;
use std::alloc::Global;

/// The expression that the tokens of a text of SCL are, down to the end of the text. Outside where a word stands that is
/// outside the profile; else Syntax where no expression reads; else Deep where it nests deeper than 64 levels, which is found
/// before a tree is built.
pub fn expression(alloc: Global, text: &[u8], tokens: &[Token]) -> Result<Expr, ParseFault>
    requires { (file : ℕ) × AreTokens Scl file text.now tokens.now }
    ensures { AnswersExpression text.now tokens.now result }
{
    if let Some(token) = first_outside(Language::Scl, text, tokens) {
        return Err(ParseFault::Outside {
            place: token.place,
            len: token.len,
        });
    }
    let (inner, _end) = tokens.split_at(tokens.len() - 1);
    let language = scl_expression();
    let fault = match read_expression(alloc, &language, scl_actions(), text, inner)? {
        Ok(expression) => return Ok(expression),
        Err(fault) => fault,
    };
    match fault {
        ReadFault::Syntax(at) => Err(ParseFault::Syntax {
            place: tokens[at].place,
        }),
        ReadFault::Deep(place) => Err(ParseFault::Deep { place }),
    }
}
