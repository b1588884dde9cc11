//! The text of a source, down to its end.
ghost use Rattle.std.specs.Prelude.{ℕ, IsTrue};
ghost use Rattle.pv_lex.specs.Tokens.{AreTokens};
ghost use Rattle.pv_ll.specs.Check.{is_ll1};
ghost use Rattle.pv_parse_source.specs.SourceAnswers.{ReadsSources};
ghost use Rattle.pv_parse_source.specs.Parsing.{AnswersParse};

use crate::sources::read_source;
use pv_lex::{Language as Of, Token};
use pv_ll::Language;
use pv_parse::{Action, ParseFault, ReadFault, first_outside};
use pv_tree::Blocks;
use std::alloc::Global;

/// The blocks that the tokens of a source in a language are, down to the end of the text, by the language's table and actions.
/// Outside where a word stands that is outside the profile; else Syntax where no list of blocks reads; else Deep where it nests
/// deeper than 64 levels, which is found before a tree is built.
pub fn parse_source(
    alloc: Global,
    its: Of,
    language: &Language,
    actions: &[Action],
    text: &[u8],
    tokens: &[Token],
) -> Result<Blocks, ParseFault>
    requires ll1 { IsTrue (is_ll1 language.now) }
    requires tokens { (file : ℕ) × AreTokens its file text.now tokens.now }
    requires reads { ReadsSources its language.now actions.now }
    ensures { AnswersParse its text.now tokens.now result }
{
    if let Some(token) = first_outside(its, text, tokens) {
        return Err(ParseFault::Outside {
            place: token.place,
            len: token.len,
        });
    }
    let (inner, _end) = tokens.split_at(tokens.len() - 1);
    let fault = match read_source(alloc, language, actions, text, inner)? {
        Ok(blocks) => return Ok(blocks),
        Err(fault) => fault,
    };
    match fault {
        ReadFault::Syntax(at) => Err(ParseFault::Syntax {
            place: tokens[at].place,
        }),
        ReadFault::Deep(place) => Err(ParseFault::Deep { place }),
    }
}
