//! The types of numbers, and the parts of addresses.
ghost use Rattle.std.specs.Prelude.{◌≡◌, ◌≤◌, ◌^◌, pos, neg_ℤ, ◌≤ℤ◌, length, drop, not, ◌∷◌, []};
ghost use Rattle.pv_lex.specs.Shapes.{is_one_of};
ghost use Rattle.std.specs.List.{prefix_len};
ghost use Rattle.std.specs.Char.{is_ascii_digit};
ghost use Rattle.pv_lex.specs.Classes.{is_word_byte};
ghost use Rattle.pv_lex.specs.Values.{token_value};
ghost use Rattle.pv_tree.specs.Literals.{prefix_type, number_type, bare_address, address_bits, from_digit, leading_digits, behind_digits};
ghost use Rattle.pv_parse.specs.TokenTexts.{is_text, starts, area_of_letter, area_of};

use crate::texts::is_text;
use pv_lex::{Kind, fitting_value, token_value};
use pv_tree::{Area, Root};
use pv_word::Ty;

/// Whether this byte begins the text.
fn starts(text: &[u8], byte: u8) -> bool
    ensures { result ≡ starts byte text.now }
{
    !text.is_empty() && text[0] == byte
}

/// Whether the byte is one of a word.
fn is_word_byte(byte: u8) -> bool
    ensures { result ≡ is_word_byte byte }
{
    byte.is_ascii_alphanumeric() || byte == b'_'
}

/// How many bytes of a word begin the text.
fn word_len(text: &[u8]) -> usize
    ensures within { result ≤ length text.now }
    ensures exact { result ≡ prefix_len is_word_byte text.now }
{
    text.iter().take_while(|byte| is_word_byte(**byte)).count()
}

/// The type that a number has of its own.
#[tactic(auto, unfolding(pv_tree::specs::Literals::number_type))]
pub fn number_type(bytes: &[u8]) -> Option<Ty>
    ensures { result ≡ number_type bytes.now }
{
    let (word, rest) = bytes.split_at(word_len(bytes));
    if starts(rest, b'#') {
        prefix_type(word)
    } else {
        None
    }
}

/// The number with the other sign, which one of 64 bits has.
fn negated(value: i128) -> i128
    requires { neg_ℤ (pos (2 ^ 64)) ≤ℤ value }
    ensures { result ≡ neg_ℤ value }
{
    -value
}

/// The value of a token with the other sign.
pub fn negated_value(kind: Kind, bytes: &[u8]) -> i128
    ensures { result ≡ neg_ℤ (token_value kind bytes.now) }
{
    negated(token_value(kind, bytes))
}

/// Whether the text is this word.
#[tactic(auto, unfolding(pv_lex::specs::Shapes::is_one_of))]
fn is_just(text: &[u8], word: &[u8]) -> bool
    ensures { result ≡ is_one_of (word.now ∷ []) text.now }
{
    is_text(text, word)
}

/// Whether the text is one of these words.
#[tactic(auto, unfolding(pv_lex::specs::Shapes::is_one_of))]
fn is_either(text: &[u8], one: &[u8], other: &[u8]) -> bool
    ensures { result ≡ is_one_of (one.now ∷ other.now ∷ []) text.now }
{
    is_text(text, one) || is_text(text, other)
}

/// The type that the word before `#` gives a number.
#[tactic(auto, unfolding(pv_tree::specs::Literals::prefix_type))]
fn prefix_type(word: &[u8]) -> Option<Ty>
    ensures { result ≡ prefix_type word.now }
{
    if is_just(word, b"INT") {
        Some(Ty::Int)
    } else if is_either(word, b"DINT", b"L") {
        Some(Ty::Dint)
    } else if is_either(word, b"B", b"BYTE") {
        Some(Ty::Byte)
    } else if is_either(word, b"W", b"WORD") {
        Some(Ty::Word)
    } else if is_either(word, b"DW", b"DWORD") {
        Some(Ty::Dword)
    } else if is_either(word, b"T", b"TIME") {
        Some(Ty::Time)
    } else {
        None
    }
}

/// An address without its `%`.
fn bare_address(bytes: &[u8]) -> &[u8]
    ensures { result.now ≡ bare_address bytes.now }
{
    if starts(bytes, b'%') {
        let (_percent, rest) = bytes.split_at(1);
        rest
    } else {
        bytes
    }
}

/// The area of an address without its `%`.
fn area_letter(text: &[u8]) -> Area
    ensures { result ≡ area_of_letter text.now }
{
    if starts(text, b'I') || starts(text, b'i') {
        Area::I
    } else if starts(text, b'Q') || starts(text, b'q') {
        Area::Q
    } else {
        Area::M
    }
}

/// What is left behind the first byte.
fn behind_first(text: &[u8]) -> &[u8]
    ensures { result.now ≡ drop 1 text.now }
{
    let (_first, rest) = text.split_at(text.len().min(1));
    rest
}

/// The bits of an address without its `%`.
fn address_bits(text: &[u8]) -> u32
    ensures { result ≡ address_bits text.now }
{
    let rest = behind_first(text);
    if starts(rest, b'B') || starts(rest, b'b') {
        8
    } else if starts(rest, b'W') || starts(rest, b'w') {
        16
    } else if starts(rest, b'D') || starts(rest, b'd') {
        32
    } else {
        1
    }
}

/// The text from its first digit on.
fn from_digit(text: &[u8]) -> &[u8]
    ensures { result.now ≡ from_digit text.now }
{
    let (_front, rest) = text.split_at(silent_len(text));
    rest
}

/// How many bytes stand before the first digit.
fn silent_len(text: &[u8]) -> usize
    ensures within { result ≤ length text.now }
    ensures exact { result ≡ prefix_len (λ b. not (is_ascii_digit b)) text.now }
{
    text.iter()
        .take_while(|byte| !byte.is_ascii_digit())
        .count()
}

/// How many digits begin the text.
fn digit_len(text: &[u8]) -> usize
    ensures within { result ≤ length text.now }
    ensures exact { result ≡ prefix_len is_ascii_digit text.now }
{
    text.iter().take_while(|byte| byte.is_ascii_digit()).count()
}

/// The operand that an address begins.
#[tactic(auto, unfolding(crate::specs::TokenTexts::area_of))]
pub fn area_of(bytes: &[u8]) -> Root
    ensures { result ≡ area_of bytes.now }
{
    let text = bare_address(bytes);
    let from = from_digit(text);
    let (digits, rest) = from.split_at(digit_len(from));
    Root::Area {
        area: area_letter(text),
        bits: address_bits(text),
        byte: fitting_value(digits),
        bit: fitting_value(behind_first(rest)),
    }
}
