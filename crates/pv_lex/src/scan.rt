//! What stands at the front of a text: bytes of a class, digits, words, and comments up to their
//! end.
//!
//! Each reader answers what is left behind that which it takes, or none where it doesn't stand
//! there.
ghost use Rattle.std.specs.Prelude.{option_copied, ◌≡◌, ◌+◌, ◌≤◌, length};
ghost use Rattle.std.specs.List.{prefix_len};
ghost use Rattle.pv_lex.specs.Classes.{has};
ghost use Rattle.pv_lex.specs.Tokens.{skip, opens_comment};
ghost use Rattle.pv_lex.specs.Shapes.{begins};
ghost use Rattle.pv_lex.specs.Scans.{past, past_joined, past_number, past_close, longer, word_len, goes_on};

use crate::class::Class;

/// Whether a byte of the class begins the text.
#[inline(always)]
pub fn begins(class: Class, text: &[u8]) -> bool
    ensures { result ≡ begins class text.now }
{
    !text.is_empty() && class.has(text[0])
}

/// What is left behind a byte of the class.
#[inline(always)]
pub fn past(class: Class, text: &[u8]) -> Option<&[u8]>
    ensures { option_copied result ≡ past class text.now }
{
    if !begins(class, text) {
        return None;
    }
    let (_first, rest) = text.split_at(1);
    Some(rest)
}

/// What is left behind the bytes of the class.
#[inline(always)]
pub fn skip(class: Class, text: &[u8]) -> &[u8]
    ensures { result.now ≡ skip class text.now }
{
    let (_front, rest) = text.split_at(front_len(class, text));
    rest
}

/// How many bytes of the class begin the text.
#[inline(always)]
fn front_len(class: Class, text: &[u8]) -> usize
    ensures within { result ≤ length text.now }
    ensures exact { result ≡ prefix_len (has class) text.now }
{
    text.iter().take_while(|byte| class.has(**byte)).count()
}

/// How many bytes of a word begin the text.
#[inline(always)]
pub fn word_len(text: &[u8]) -> usize
    ensures within { result ≤ length text.now }
    ensures exact { result ≡ word_len text.now }
{
    front_len(Class::WordByte, text)
}

/// What is left behind a number of digits of the class, where one `_` may stand between two of
/// them.
pub fn past_number(class: Class, text: &[u8]) -> Option<&[u8]>
    ensures { option_copied result ≡ past_number class text.now }
{
    let rest = past(class, text)?;
    Some(past_joined(class, rest))
}

/// What is left behind the digits of a number whose first one stands before the text.
fn past_joined(class: Class, text: &[u8]) -> &[u8]
    ensures { result.now ≡ past_joined class text.now }
{
    let mut rest = text;
    while goes_on(class, rest) {
        let (_first, others) = rest.split_at(1);
        rest = others;
    }
    rest
}

/// Whether a digit of the class begins the text, or `_` and such a digit.
#[inline(always)]
fn goes_on(class: Class, text: &[u8]) -> bool
    ensures { result ≡ goes_on class text.now }
{
    if text.is_empty() {
        return false;
    }
    let (_first, others) = text.split_at(1);
    class.has(text[0]) || text[0] == b'_' && begins(class, others)
}

/// What is left behind the first `*)`.
pub fn past_close(text: &[u8]) -> Option<&[u8]>
    ensures { option_copied result ≡ past_close text.now }
{
    let mut rest = text;
    while !rest.is_empty() {
        let (_first, others) = rest.split_at(1);
        if rest[0] == b'*' && begins(Class::Byte(b')'), others) {
            let (_close, behind) = others.split_at(1);
            return Some(behind);
        }
        rest = others;
    }
    None
}

/// Whether `(*` begins the text.
pub fn opens_comment(text: &[u8]) -> bool
    ensures { result ≡ opens_comment text.now }
{
    if text.is_empty() {
        return false;
    }
    let (_first, others) = text.split_at(1);
    text[0] == b'(' && begins(Class::Byte(b'*'), others)
}

/// The one behind which less is left.
#[inline(always)]
pub fn longer<'a>(a: Option<&'a [u8]>, b: Option<&'a [u8]>) -> Option<&'a [u8]>
    ensures { option_copied result ≡ longer (option_copied a.entry) (option_copied b.entry) }
{
    match (a, b) {
        (None, _) => b,
        (Some(_), None) => a,
        (Some(one), Some(other)) => { if one.len() <= other.len() { a } else { b } }
    }
}
