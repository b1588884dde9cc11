//! The kinds of tokens that the grammars of SCL and STL tell apart.
//!
//! One pass over the tokens, which looks at each token's own bytes and at whether the one before it is `#` or `.`.
ghost use Rattle.std.specs.Prelude.{◌≡◌, ℕ, false, unwrap_or, IfOk, take, drop};
ghost use Rattle.std.specs.List.{list_all, list_any};
ghost use Rattle.std.specs.Char.{is_ascii_digit};
ghost use Rattle.std.specs.Str.{str_eq_ignore_ascii_case};
ghost use Rattle.pv_lex.specs.Shapes.{is_one_of};
ghost use Rattle.pv_tree.specs.Lexemes.{lexemes_of};
ghost use Rattle.pv_tree.specs.Outside.{is_mark};
ghost use Rattle.pv_tree.specs.Words.{prefixes, is_digits, is_numbered_at, is_numbered};
ghost use Rattle.pv_parse.specs.LookUps.{look_up};
ghost use Rattle.pv_parse.specs.Kinds.{word_entries, sign_entries, word_kind, other_kind, marked_kind, sign_kind, kind_by, marks_by, kinds_of};

use crate::entries::{signs_with, words_with};
use crate::kind::{
    ADDRESS, FREE_NUMBERED, FREE_PREFIX, FREE_WORD, NUMBER, NUMBERED, OUTSIDE, PLAIN, QUOTED,
};
use crate::look_up::{is_same, is_sign, meaning_of};
use pv_lex::{Kind, Token};
use std::alloc::{AllocError, Global};

/// The kinds of the tokens of a text, one for each. The first isn't taken to be behind `#` or `.`.
///
/// Its time is proportional to the number of tokens and the length of their bytes.
pub fn kinds(alloc: Global, text: &[u8], tokens: &[Token]) -> Result<Vec<u8>, AllocError>
    ensures { IfOk result (λ kinds. kinds.items ≡ kinds_of false (lexemes_of text.now tokens.now)) }
{
    let mut kinds = Vec::with_capacity(alloc, tokens.len())?;
    let mut marked = false;
    for token in tokens {
        let bytes = bytes_of(text, token);
        kinds.push(kind_by(token.kind, marked, bytes))?;
        marked = marks_by(token.kind, bytes);
    }
    Ok(kinds)
}

/// The bytes of a token, as far as the text has them.
pub fn bytes_of<'a>(text: &'a [u8], token: &Token) -> &'a [u8]
    ensures { result.now ≡ take token.now.len (drop token.now.place.offset text.now) }
{
    let from = token.place.offset as usize;
    let behind = if from < text.len() {
        &text[from..]
    } else {
        &[]
    };
    let len = token.len as usize;
    if len < behind.len() {
        &behind[..len]
    } else {
        behind
    }
}

/// The kind of a token of these bytes, directly behind `#` or `.` or not.
pub fn kind_by(kind: Kind, marked: bool, bytes: &[u8]) -> u8
    ensures { result ≡ kind_by kind marked bytes.now }
{
    match kind {
        Kind::Word => {
            if marked {
                marked_kind(bytes)
            } else {
                word_kind(bytes)
            }
        }
        Kind::Sign => sign_kind(bytes),
        Kind::Quoted => QUOTED,
        Kind::Number => NUMBER,
        Kind::Address => ADDRESS,
        Kind::Real | Kind::End => OUTSIDE,
    }
}

/// Whether a token of these bytes is `#` or `.`.
pub fn marks_by(kind: Kind, bytes: &[u8]) -> bool
    ensures { result ≡ marks_by kind bytes.now }
{
    match kind {
        Kind::Sign => is_mark(bytes),
        _ => false,
    }
}

/// Whether a sign is `#` or `.`.
pub fn is_mark(bytes: &[u8]) -> bool
    ensures { result ≡ is_mark bytes.now }
{
    is_sign(bytes, b'#') || is_sign(bytes, b'.')
}

/// The kind of a word that isn't directly behind `#` or `.`.
#[tactic(auto, unfolding(crate::specs::Kinds::word_kind))]
fn word_kind(bytes: &[u8]) -> u8
    ensures { result ≡ word_kind bytes.now }
{
    match word_of(bytes) {
        Some(kind) => kind,
        None => other_kind(bytes),
    }
}

/// What the table of words says of a word.
fn word_of(bytes: &[u8]) -> Option<u8>
    ensures { (other : ℕ) → look_up word_entries bytes.now other ≡ unwrap_or result other }
{
    if bytes.is_empty() {
        return None;
    }
    meaning_of(words_with(bytes[0].to_ascii_lowercase()), bytes)
}

/// The kind of a word that isn't in the table.
#[tactic(auto, unfolding(crate::specs::Kinds::other_kind))]
fn other_kind(bytes: &[u8]) -> u8
    ensures { result ≡ other_kind bytes.now }
{
    if is_numbered(bytes) { NUMBERED } else { PLAIN }
}

/// The kind of a word directly behind `#` or `.`.
#[tactic(auto, unfolding(crate::specs::Kinds::marked_kind))]
fn marked_kind(bytes: &[u8]) -> u8
    ensures { result ≡ marked_kind bytes.now }
{
    if is_prefix(bytes) {
        FREE_PREFIX
    } else if is_numbered(bytes) {
        FREE_NUMBERED
    } else {
        FREE_WORD
    }
}

/// The kind of a sign.
#[tactic(auto, unfolding(crate::specs::Kinds::sign_kind))]
fn sign_kind(bytes: &[u8]) -> u8
    ensures { result ≡ sign_kind bytes.now }
{
    match sign_of(bytes) {
        Some(kind) => kind,
        None => OUTSIDE,
    }
}

/// What the table of signs says of a sign.
fn sign_of(bytes: &[u8]) -> Option<u8>
    ensures { (other : ℕ) → look_up sign_entries bytes.now other ≡ unwrap_or result other }
{
    if bytes.is_empty() {
        return None;
    }
    meaning_of(signs_with(bytes[0].to_ascii_lowercase()), bytes)
}

/// Whether the word is a prefix with digits alone behind it, as FB1.
#[tactic(auto, unfolding(pv_tree::specs::Words::is_numbered))]
fn is_numbered(bytes: &[u8]) -> bool
    ensures { result ≡ is_numbered bytes.now }
{
    is_numbered_at(bytes, 2) || is_numbered_at(bytes, 3)
}

/// Whether so many bytes of the word are a prefix and the others digits.
fn is_numbered_at(bytes: &[u8], len: usize) -> bool
    ensures { result ≡ is_numbered_at len bytes.now }
{
    if bytes.len() <= len {
        return false;
    }
    let (front, digits) = bytes.split_at(len);
    are_digits(digits) && is_prefix(front)
}

/// Whether the bytes are digits, at least one.
pub fn are_digits(bytes: &[u8]) -> bool
    ensures { result ≡ is_digits bytes.now }
{
    !bytes.is_empty() && are_all_digits(bytes)
}

/// Whether no byte is anything but a digit.
fn are_all_digits(bytes: &[u8]) -> bool
    ensures { result ≡ list_all is_ascii_digit bytes.now }
{
    bytes.iter().all(|b| b.is_ascii_digit())
}

/// The words that a number makes a name with.
static PREFIXES: [&[u8]; 5] = [b"OB", b"FB", b"FC", b"DB", b"UDT"];

/// Whether the word is one that a number makes a name with.
fn is_prefix(bytes: &[u8]) -> bool
    ensures { result ≡ is_one_of prefixes bytes.now }
{
    is_among(bytes, &PREFIXES)
}

/// Whether the text is one of the words.
fn is_among(text: &[u8], words: &[&[u8]]) -> bool
    ensures { result ≡ list_any (λ word. str_eq_ignore_ascii_case text.now word.now) words.now }
{
    words.iter().any(|word| is_same(text, word))
}
