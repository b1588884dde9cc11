//! The stretch that begins a text: the longest token or dropped text.
ghost use Rattle.std.specs.Prelude.{◌≡◌, ◌≤◌, ◌<◌, ◌-◌, ℕ, length, take, option_copied, None, MatchResult, IfOk};
ghost use Rattle.pv_lex.specs.Scans.{past_header, better, stretch_of, letter_stretch, digit_stretch, sign_stretch, fault_of, fitting, next_of};
ghost use Rattle.pv_lex.specs.declared.token.Kind.TheVariants as k;

use crate::class::Class;
use crate::context::{Context, is_header};
use crate::fault::FaultKind;
use crate::scan::{begins, opens_comment, skip, word_len};
use crate::shapes::{
    past_address, past_dropped, past_plain_number, past_quoted, past_real, past_sign,
    past_typed_number, past_word,
};
use crate::token::{Kind, Language};
use crate::value::{do_runs_fit, value_of};

/// A stretch at the front of a text: a token's kind, none where it is dropped, and how many bytes
/// it leaves.
#[derive(Clone, Copy)]
pub struct Stretch {
    pub kind: Option<Kind>,
    pub left: usize,
}

/// A stretch that is read: a token's kind, none where it is dropped, and its number of bytes.
#[derive(Clone, Copy)]
pub struct Next {
    pub kind: Option<Kind>,
    pub len: usize,
}

/// The stretch that is next in the text.
#[tactic(auto, unfolding(crate::specs::Scans::next_of))]
pub fn next_in(language: Language, context: Context, text: &[u8]) -> Result<Next, FaultKind>
    requires { 0 < length text.now }
    ensures { result ≡ next_of language context text.now }
{
    let Some(stretch) = stretch_at(language, context, text) else {
        return Err(fault_at(text));
    };
    let (bytes, _rest) = text.split_at(text.len() - stretch.left);
    fitting(stretch.kind, bytes, text)
}

/// The stretch of this kind and of these bytes, with which the text begins, where it may stand
/// there.
fn fitting(kind: Option<Kind>, bytes: &[u8], text: &[u8]) -> Result<Next, FaultKind>
    ensures { result ≡ fitting kind bytes.now text.now }
{
    match kind {
        Some(Kind::Number) => {
            if value_of(bytes).is_none() {
                return Err(FaultKind::NumberTooWide);
            }
        }
        Some(Kind::Address) => {
            if !do_runs_fit(bytes) {
                return Err(FaultKind::NumberTooWide);
            }
        }
        Some(Kind::Sign) => {
            if opens_comment(text) {
                return Err(FaultKind::OpenComment);
            }
        }
        _ => {}
    }
    Ok(Next {
        kind,
        len: bytes.len(),
    })
}

/// Why no stretch begins the text.
fn fault_at(text: &[u8]) -> FaultKind
    ensures { result ≡ fault_of text.now }
{
    if begins(Class::Byte(b'{'), text) {
        FaultKind::OpenComment
    } else if begins(Class::Byte(b'"'), text) {
        FaultKind::OpenQuote
    } else {
        FaultKind::BadByte
    }
}

/// The longest stretch that begins the text.
#[tactic(auto, unfolding(crate::specs::Scans::stretch_of))]
fn stretch_at(language: Language, context: Context, text: &[u8]) -> Option<Stretch>
    ensures { result ≡ stretch_of language context text.now }
{
    if begins(Class::Letter, text) {
        letter_stretch(language, context, text)
    } else if begins(Class::Digit, text) {
        digit_stretch(text)
    } else {
        sign_stretch(language, text)
    }
}

/// The longest stretch that begins the text with a letter.
#[tactic(auto, unfolding(crate::specs::Scans::letter_stretch))]
fn letter_stretch(language: Language, context: Context, text: &[u8]) -> Option<Stretch>
    ensures { result ≡ letter_stretch language context text.now }
{
    let found = better(Some(Kind::Number), past_typed_number(text), None);
    let found = better(Some(Kind::Word), past_word(text), found);
    let found = better(Some(Kind::Address), past_address(text), found);
    better(None, past_header(language, context, text), found)
}

/// The longest stretch that begins the text with a digit.
#[tactic(auto, unfolding(crate::specs::Scans::digit_stretch))]
fn digit_stretch(text: &[u8]) -> Option<Stretch>
    ensures { result ≡ digit_stretch text.now }
{
    let found = better(Some(Kind::Real), past_real(text), None);
    better(Some(Kind::Number), past_plain_number(text), found)
}

/// The longest stretch that begins the text with another byte.
#[tactic(auto, unfolding(crate::specs::Scans::sign_stretch))]
fn sign_stretch(language: Language, text: &[u8]) -> Option<Stretch>
    ensures { result ≡ sign_stretch language text.now }
{
    let found = better(Some(Kind::Sign), past_sign(language, text), None);
    let found = better(Some(Kind::Quoted), past_quoted(text), found);
    let found = better(Some(Kind::Address), past_address(text), found);
    better(None, past_dropped(text), found)
}

/// The longer one of a stretch of this kind, which leaves the rest, and another one.
#[inline(always)]
fn better(kind: Option<Kind>, rest: Option<&[u8]>, other: Option<Stretch>) -> Option<Stretch>
    ensures { result ≡ better kind (option_copied rest.entry) other }
{
    let Some(rest) = rest else {
        return other;
    };
    let found = Stretch {
        kind,
        left: rest.len(),
    };
    match other {
        None => Some(found),
        Some(other) => Some(if found.left <= other.left {
            found
        } else {
            other
        }),
    }
}

/// What is left behind the header line that begins the text.
#[tactic(auto, unfolding(crate::specs::Scans::past_header))]
fn past_header(language: Language, context: Context, text: &[u8]) -> Option<&[u8]>
    ensures { option_copied result ≡ past_header language context text.now }
{
    if !begins(Class::Letter, text) {
        return None;
    }
    let (word, line) = text.split_at(word_len(text));
    if !is_header(language, context, word, line) {
        return None;
    }
    Some(skip(Class::Inline, line))
}
