//! The first token that is outside the profile.
//!
//! One pass over the tokens, which carries what those before say of a place, and looks at one token ahead.
ghost use Rattle.std.specs.Prelude.{◌≡◌, IfSome, IfNone, Contains};
ghost use Rattle.std.specs.Option.{option_map};
ghost use Rattle.pv_lex.specs.Shapes.{is_one_of};
ghost use Rattle.pv_tree.specs.Lexemes.{lexeme_of, lexemes_of};
ghost use Rattle.pv_tree.specs.Outside.{IsFirstOutside, IsWithin, area_words, is_area_word, is_outside_sign, is_number_next, is_colon_next};
ghost use Rattle.pv_parse.specs.Roles.{spot_of, find_outside, passed_kind, passed_word, passed_sign, is_outside_by_role, word_role};
ghost use Rattle.pv_tree.specs.Outside.{first_spot};

use crate::look_up::{is_same, is_sign};
use crate::role::{AREA_WORD, LEFT_OUT_INSTRUCTION, LEFT_OUT_WORD, TIMER_WORD, role_of};
use crate::spot::{Spot, behind_other, behind_role, behind_sign, first_spot};
use crate::token_kinds::{are_digits, bytes_of};
use pv_lex::{Kind, Language, Token};

/// The first of a text's tokens that is outside the profile: a real number, `**`, a type, jump or block type that the profile
/// leaves out, a peripheral area, and in STL an instruction, a timer or a counter.
///
/// Its time is proportional to the number of tokens and the length of their bytes. It takes no memory.
pub fn first_outside(language: Language, text: &[u8], tokens: &[Token]) -> Option<Token>
    ensures found { IfSome result (λ token. IsFirstOutside language (lexemes_of text.now tokens.now) (lexeme_of text.now token)) }
    ensures token { IfSome result (λ token. Contains tokens.now token) }
    ensures none { IfNone result (IsWithin language (lexemes_of text.now tokens.now)) }
{
    find(language, text, tokens)
}

/// The same, as one recursion on the tokens has it.
fn find(language: Language, text: &[u8], tokens: &[Token]) -> Option<Token>
    ensures first { option_map (λ token. lexeme_of text.now token) result ≡ find_outside language first_spot (lexemes_of text.now tokens.now) }
    ensures token { IfSome result (λ token. Contains tokens.now token) }
{
    let mut spot = first_spot();
    for i in 0..tokens.len() {
        let token = &tokens[i];
        let bytes = bytes_of(text, token);
        match passed(language, spot, token.kind, bytes, text, &tokens[i + 1..]) {
            Some(next) => spot = next,
            None => return Some(*token),
        }
    }
    None
}

/// The spot behind a token of these bytes, at such a spot and before the others, or none where it is outside.
fn passed(
    language: Language,
    spot: Spot,
    kind: Kind,
    bytes: &[u8],
    text: &[u8],
    others: &[Token],
) -> Option<Spot>
    ensures { option_map spot_of result ≡ passed_kind kind language (spot_of spot) bytes.now (lexemes_of text.now others.now) }
{
    match kind {
        Kind::Real => None,
        Kind::Sign => passed_sign(language, spot, bytes, text, others),
        Kind::Word => {
            if spot.marked {
                Some(behind_other(spot))
            } else {
                passed_word(language, spot, bytes, text, others)
            }
        }
        Kind::Quoted | Kind::Number | Kind::Address | Kind::End => Some(behind_other(spot)),
    }
}

/// The same, of a word where no mark stands before it.
fn passed_word(
    language: Language,
    spot: Spot,
    bytes: &[u8],
    text: &[u8],
    others: &[Token],
) -> Option<Spot>
    ensures { option_map spot_of result ≡ passed_word language (spot_of spot) bytes.now (lexemes_of text.now others.now) }
{
    let role = role_of(bytes);
    if is_role_outside(language, spot, role, bytes, text, others) {
        None
    } else {
        Some(behind_role(spot, role))
    }
}

/// The same, of a sign.
fn passed_sign(
    language: Language,
    spot: Spot,
    bytes: &[u8],
    text: &[u8],
    others: &[Token],
) -> Option<Spot>
    ensures { option_map spot_of result ≡ passed_sign language (spot_of spot) bytes.now (lexemes_of text.now others.now) }
{
    if is_same(bytes, b"**") || is_outside_sign(language, spot, bytes, text, others) {
        None
    } else {
        Some(behind_sign(spot, bytes))
    }
}

/// Whether a word of this role is outside where no mark stands before it.
fn is_role_outside(
    language: Language,
    spot: Spot,
    role: u8,
    bytes: &[u8],
    text: &[u8],
    others: &[Token],
) -> bool
    ensures { result ≡ is_outside_by_role language (spot_of spot) role bytes.now (lexemes_of text.now others.now) }
{
    role == LEFT_OUT_WORD
        || is_area_word(bytes)
        || is_word_outside(language, spot, role, text, others)
}

/// Whether a word of this role is outside as only STL has it.
fn is_word_outside(language: Language, spot: Spot, role: u8, text: &[u8], others: &[Token]) -> bool
    ensures { result ≡ word_role language (spot_of spot) role (lexemes_of text.now others.now) }
{
    match language {
        Language::Scl => false,
        Language::Stl => {
            (spot.begins && role == LEFT_OUT_INSTRUCTION && !is_colon_next(text, others))
                || (spot.in_code
                    && !spot.begins
                    && role == TIMER_WORD
                    && is_number_next(text, others))
        }
    }
}

/// Whether a sign is outside as only STL has it: `+` before a number, where an instruction begins.
#[tactic(auto, unfolding(pv_tree::specs::Outside::is_outside_sign_stl))]
fn is_outside_sign(
    language: Language,
    spot: Spot,
    bytes: &[u8],
    text: &[u8],
    others: &[Token],
) -> bool
    ensures { result ≡ is_outside_sign language (spot_of spot) bytes.now (lexemes_of text.now others.now) }
{
    match language {
        Language::Scl => false,
        Language::Stl => spot.begins && is_sign(bytes, b'+') && is_number_next(text, others),
    }
}

/// Whether the word is that of an area with digits alone behind it.
#[tactic(auto, unfolding(pv_tree::specs::Outside::is_area_word))]
fn is_area_word(bytes: &[u8]) -> bool
    ensures { result ≡ is_area_word bytes.now }
{
    if bytes.len() <= 3 {
        return false;
    }
    let (front, digits) = bytes.split_at(3);
    are_digits(digits) && is_area(front)
}

/// Whether the word is one that an area is written with.
fn is_area(bytes: &[u8]) -> bool
    ensures { result ≡ is_one_of area_words bytes.now }
{
    role_of(bytes) == AREA_WORD
}

/// Whether the next token is a number.
fn is_number_next(text: &[u8], others: &[Token]) -> bool
    ensures { result ≡ is_number_next (lexemes_of text.now others.now) }
{
    match others {
        [next, ..] => next.kind == Kind::Number,
        [] => false,
    }
}

/// Whether the next token is `:`.
fn is_colon_next(text: &[u8], others: &[Token]) -> bool
    ensures { result ≡ is_colon_next (lexemes_of text.now others.now) }
{
    match others {
        [next, ..] => next.kind == Kind::Sign && is_sign(bytes_of(text, next), b':'),
        [] => false,
    }
}
