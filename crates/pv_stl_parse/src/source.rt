//! Sources.
ghost use Rattle.std.specs.Prelude.{ℕ};
ghost use Rattle.pv_lex.specs.declared.token.Language.TheVariants.{Stl};
ghost use Rattle.pv_lex.specs.Tokens.{AreTokens};
ghost use Rattle.pv_parse_source.specs.Parsing.{AnswersParse};

use crate::actions::stl_actions;
use crate::table::stl;
use pv_lex::{Language, Token};
use pv_parse::ParseFault;
use pv_parse_source::parse_source;
use pv_tree::Blocks;
use std::alloc::Global;

/// The blocks that the tokens of a source of STL are, down to the end of the text. Outside where a word stands that is outside
/// the profile; else Syntax where no list of blocks reads; else Deep where it nests deeper than 64 levels, which is found before
/// a tree is built.
pub fn parse(alloc: Global, text: &[u8], tokens: &[Token]) -> Result<Blocks, ParseFault>
    requires { (file : ℕ) × AreTokens Stl file text.now tokens.now }
    ensures { AnswersParse Stl text.now tokens.now result }
{
    let language = stl();
    parse_source(alloc, Language::Stl, &language, stl_actions(), text, tokens)
}
