//! Calls of pv_parse.
ghost use Rattle.std.specs.Prelude.{◌≡◌, [], ℕ, List, Ok, Err, IfSome, IfNone, Contains, MatchResult};
ghost use Rattle.pv_tree.specs.Lexemes.{lexeme_of, lexemes_of};
ghost use Rattle.pv_tree.specs.Outside.{IsFirstOutside, IsWithin};
ghost use Rattle.pv_tree.specs.Nesting.{most_levels};
ghost use Rattle.pv_parse.specs.Shades.{Shade, place_at};
ghost use Rattle.pv_parse.specs.ItemShades.{shade_making};
ghost use Rattle.pv_parse.specs.Building.{Plays, Built};

use pv_lex::{Language, Place, Token};
use pv_ll::Turn;
use pv_parse::{Action, Stop};
use std::alloc::Global;

/// [`pv_parse::first_outside`].
pub fn first_outside(language: Language, text: &[u8], tokens: &[Token]) -> Option<Token>
    ensures found { IfSome result (λ token. IsFirstOutside language (lexemes_of text.now tokens.now) (lexeme_of text.now token)) }
    ensures token { IfSome result (λ token. Contains tokens.now token) }
    ensures none { IfNone result (IsWithin language (lexemes_of text.now tokens.now)) }
{
    pv_parse::first_outside(language, text, tokens)
}

/// [`pv_parse::find_too_deep`].
pub fn find_too_deep(
    alloc: Global,
    actions: &[Action],
    turns: &[Turn],
    tokens: &[Token],
) -> Result<Option<Place>, Stop>
    ensures { (text : List ℕ) (behind : List Shade)
        → Plays (shade_making actions.now) turns.now (lexemes_of text tokens.now) [] behind
        → Built (λ place. place) result (place_at most_levels behind) }
{
    pv_parse::find_too_deep(alloc, actions, turns, tokens)
}

/// [`pv_parse::with`].
pub fn with<A: Drop, B, E>(first: A, second: Result<B, E>) -> Result<(A, B), E>
    ensures { MatchResult result (λ both. (both.0 ≡ first) × (second ≡ Ok both.1)) (λ stop. second ≡ Err stop) }
{
    pv_parse::with(first, second)
}
