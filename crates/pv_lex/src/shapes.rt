//! The shapes of tokens and of dropped text.
//!
//! Each reader answers what is left behind the longest text of its shape that begins the text, or
//! none where none does.
ghost use Rattle.std.specs.Prelude.{◌≡◌, option_copied, Some};
ghost use Rattle.pv_lex.specs.Shapes.{Shape, dropped, line_comment, comment, attribute, white, quoted, bit_address, wide_address, plain_address, address, part, milliseconds, seconds, minutes, hours, days, hex, binary, octal, behind_prefix, typed_number, plain_number, exponent, real, pair, sign, of_type, typed_sign, signs, decimals, word, signed, duration};
ghost use Rattle.pv_lex.specs.Shapes.Shape.{done, one, many, number, either};
ghost use Rattle.pv_lex.specs.Scans.{scan, longer, past_form};
ghost use Rattle.pv_lex.specs.declared.class.Class.TheVariants as c;

use crate::class::Class;
use crate::scan::{begins, longer, past, past_close, past_number, skip, word_len};
use crate::token::Language;
use crate::words::{is_decimal_prefix, is_hex_prefix, is_time_prefix};

/// White space, a comment or an attribute.
pub fn past_dropped(text: &[u8]) -> Option<&[u8]>
    ensures { option_copied result ≡ scan dropped text.now }
{
    let comments = longer(
        past_line_comment(text),
        longer(past_comment(text), past_attribute(text)),
    );
    longer(past_white(text), comments)
}

/// White space.
#[inline(always)]
fn past_white(text: &[u8]) -> Option<&[u8]>
    ensures { option_copied result ≡ scan white text.now }
{
    Some(skip(Class::Space, past(Class::Space, text)?))
}

/// A comment up to the end of its line.
#[inline(always)]
fn past_line_comment(text: &[u8]) -> Option<&[u8]>
    ensures { option_copied result ≡ scan line_comment text.now }
{
    let text = past(Class::Byte(b'/'), text)?;
    let text = past(Class::Byte(b'/'), text)?;
    Some(skip(Class::Inline, text))
}

/// A comment between `(*` and `*)`.
#[inline(always)]
fn past_comment(text: &[u8]) -> Option<&[u8]>
    ensures { option_copied result ≡ scan comment text.now }
{
    let text = past(Class::Byte(b'('), text)?;
    let text = past(Class::Byte(b'*'), text)?;
    past_close(text)
}

/// An attribute between `{` and `}`.
#[inline(always)]
fn past_attribute(text: &[u8]) -> Option<&[u8]>
    ensures { option_copied result ≡ scan attribute text.now }
{
    let text = past(Class::Byte(b'{'), text)?;
    past(Class::Byte(b'}'), skip(Class::Braced, text))
}

/// A word.
pub fn past_word(text: &[u8]) -> Option<&[u8]>
    ensures { option_copied result ≡ scan word text.now }
{
    if !begins(Class::Letter, text) {
        return None;
    }
    let (_word, rest) = text.split_at(word_len(text));
    Some(rest)
}

/// A name in quotes.
#[inline(always)]
pub fn past_quoted(text: &[u8]) -> Option<&[u8]>
    ensures { option_copied result ≡ scan quoted text.now }
{
    let text = past(Class::Byte(b'"'), text)?;
    past(Class::Byte(b'"'), skip(Class::Quotable, text))
}

/// Decimal digits.
#[inline(always)]
fn past_decimals(text: &[u8]) -> Option<&[u8]>
    ensures { option_copied result ≡ scan (decimals done) text.now }
{
    Some(skip(Class::Digit, past(Class::Digit, text)?))
}

/// An address, `%` standing before it or not.
pub fn past_address(text: &[u8]) -> Option<&[u8]>
    ensures { option_copied result ≡ scan address text.now }
{
    longer(past_plain_address(text), past_marked_address(text))
}

/// An address behind `%`.
#[inline(always)]
fn past_marked_address(text: &[u8]) -> Option<&[u8]>
    ensures { option_copied result ≡ scan (one (c.Byte 37) plain_address) text.now }
{
    past_plain_address(past(Class::Byte(b'%'), text)?)
}

/// An address without `%`.
#[inline(always)]
fn past_plain_address(text: &[u8]) -> Option<&[u8]>
    ensures { option_copied result ≡ scan plain_address text.now }
{
    longer(past_bit_address(text), past_wide_address(text))
}

/// The address of a bit.
#[inline(always)]
fn past_bit_address(text: &[u8]) -> Option<&[u8]>
    ensures { option_copied result ≡ scan bit_address text.now }
{
    let text = past(Class::Area, text)?;
    let text = past(Class::Digit, skip(Class::Blank, text))?;
    let text = past(Class::Byte(b'.'), skip(Class::Digit, text))?;
    past_decimals(text)
}

/// The address of a byte, word or double word.
#[inline(always)]
fn past_wide_address(text: &[u8]) -> Option<&[u8]>
    ensures { option_copied result ≡ scan wide_address text.now }
{
    let text = past(Class::Area, text)?;
    let text = past(Class::Width, text)?;
    past_decimals(skip(Class::Blank, text))
}

/// A number that begins with a digit.
pub fn past_plain_number(text: &[u8]) -> Option<&[u8]>
    ensures { option_copied result ≡ scan plain_number text.now }
{
    let based = longer(past_hex(text), longer(past_binary(text), past_octal(text)));
    longer(past_number(Class::Digit, text), based)
}

/// `16#` and hexadecimal digits.
#[inline(always)]
fn past_hex(text: &[u8]) -> Option<&[u8]>
    ensures { option_copied result ≡ scan hex text.now }
{
    let text = past(Class::Byte(b'1'), text)?;
    let text = past(Class::Byte(b'6'), text)?;
    past_number(Class::Hex, past(Class::Byte(b'#'), text)?)
}

/// `2#` and binary digits.
#[inline(always)]
fn past_binary(text: &[u8]) -> Option<&[u8]>
    ensures { option_copied result ≡ scan binary text.now }
{
    let text = past(Class::Byte(b'2'), text)?;
    past_number(Class::Either(b'0', b'1'), past(Class::Byte(b'#'), text)?)
}

/// `8#` and octal digits.
#[inline(always)]
fn past_octal(text: &[u8]) -> Option<&[u8]>
    ensures { option_copied result ≡ scan octal text.now }
{
    let text = past(Class::Byte(b'8'), text)?;
    past_number(Class::Octal, past(Class::Byte(b'#'), text)?)
}

/// A number that begins with the word of its type.
pub fn past_typed_number(text: &[u8]) -> Option<&[u8]>
    ensures { option_copied result ≡ scan typed_number text.now }
{
    if !begins(Class::Letter, text) {
        return None;
    }
    let (prefix, rest) = text.split_at(word_len(text));
    past_body(prefix, rest)
}

/// What stands behind the word of a number's type.
#[tactic(auto, using(crate::proofs::Fronts::form_behind))]
fn past_body<'a>(prefix: &[u8], text: &'a [u8]) -> Option<&'a [u8]>
    ensures { option_copied result ≡ scan (behind_prefix prefix.now) text.now }
{
    past_form(prefix, past(Class::Byte(b'#'), text)?)
}

/// What stands behind the word of a number's type and `#`.
#[tactic(auto, unfolding(crate::specs::Scans::past_form))]
fn past_form<'a>(prefix: &[u8], text: &'a [u8]) -> Option<&'a [u8]>
    ensures { option_copied result ≡ past_form prefix.now text.now }
{
    if is_decimal_prefix(prefix) {
        past_signed(text)
    } else if is_hex_prefix(prefix) {
        past_hex(text)
    } else if is_time_prefix(prefix) {
        past_duration(text)
    } else {
        None
    }
}

/// A decimal number with a sign or none.
fn past_signed(text: &[u8]) -> Option<&[u8]>
    ensures { option_copied result ≡ scan signed text.now }
{
    longer(
        past_number_behind_sign(text),
        past_number(Class::Digit, text),
    )
}

/// A decimal number behind its sign.
fn past_number_behind_sign(text: &[u8]) -> Option<&[u8]>
    ensures { option_copied result ≡ scan (one (c.Either 43 45) (number c.Digit done)) text.now }
{
    past_number(Class::Digit, past(Class::Either(b'+', b'-'), text)?)
}

/// The parts of a duration, `-` standing before them or not.
fn past_duration(text: &[u8]) -> Option<&[u8]>
    ensures { option_copied result ≡ scan duration text.now }
{
    longer(past_negative_duration(text), past_days(text))
}

/// The parts of a duration behind `-`.
fn past_negative_duration(text: &[u8]) -> Option<&[u8]>
    ensures { option_copied result ≡ scan (one (c.Byte 45) days) text.now }
{
    past_days(past(Class::Byte(b'-'), text)?)
}

/// What is left behind the rest, or the text itself where nothing more of a duration stands in it.
fn or_done<'a>(text: &'a [u8], rest: Option<&'a [u8]>) -> Option<&'a [u8]>
    ensures { option_copied result ≡ longer (Some text.now) (option_copied rest.entry) }
{
    longer(Some(text), rest)
}

/// The parts of a duration from days on.
fn past_days(text: &[u8]) -> Option<&[u8]>
    ensures { option_copied result ≡ scan days text.now }
{
    longer(past_part_of_days(text), past_hours(text))
}

/// The days of a duration and the parts behind them.
fn past_part_of_days(text: &[u8]) -> Option<&[u8]>
    ensures { option_copied result ≡ scan (part 68 100 hours) text.now }
{
    let text = past(Class::Either(b'D', b'd'), past_number(Class::Digit, text)?)?;
    or_done(text, past_hours(text))
}

/// The parts of a duration from hours on.
fn past_hours(text: &[u8]) -> Option<&[u8]>
    ensures { option_copied result ≡ scan hours text.now }
{
    longer(past_part_of_hours(text), past_minutes(text))
}

/// The hours of a duration and the parts behind them.
fn past_part_of_hours(text: &[u8]) -> Option<&[u8]>
    ensures { option_copied result ≡ scan (part 72 104 minutes) text.now }
{
    let text = past(Class::Either(b'H', b'h'), past_number(Class::Digit, text)?)?;
    or_done(text, past_minutes(text))
}

/// The parts of a duration from minutes on.
fn past_minutes(text: &[u8]) -> Option<&[u8]>
    ensures { option_copied result ≡ scan minutes text.now }
{
    longer(past_part_of_minutes(text), past_seconds(text))
}

/// The minutes of a duration and the parts behind them.
fn past_part_of_minutes(text: &[u8]) -> Option<&[u8]>
    ensures { option_copied result ≡ scan (part 77 109 seconds) text.now }
{
    let text = past(Class::Either(b'M', b'm'), past_number(Class::Digit, text)?)?;
    or_done(text, past_seconds(text))
}

/// The parts of a duration from seconds on.
fn past_seconds(text: &[u8]) -> Option<&[u8]>
    ensures { option_copied result ≡ scan seconds text.now }
{
    longer(past_part_of_seconds(text), past_milliseconds(text))
}

/// The seconds of a duration and the part behind them.
fn past_part_of_seconds(text: &[u8]) -> Option<&[u8]>
    ensures { option_copied result ≡ scan (part 83 115 milliseconds) text.now }
{
    let text = past(Class::Either(b'S', b's'), past_number(Class::Digit, text)?)?;
    or_done(text, past_milliseconds(text))
}

/// The milliseconds of a duration.
fn past_milliseconds(text: &[u8]) -> Option<&[u8]>
    ensures { option_copied result ≡ scan milliseconds text.now }
{
    let text = past(Class::Either(b'M', b'm'), past_number(Class::Digit, text)?)?;
    past(Class::Either(b'S', b's'), text)
}

/// A number with a point.
pub fn past_real(text: &[u8]) -> Option<&[u8]>
    ensures { option_copied result ≡ scan real text.now }
{
    let text = past_decimals(text)?;
    let text = past_decimals(past(Class::Byte(b'.'), text)?)?;
    or_done(text, past_exponent(text))
}

/// The exponent of a number.
fn past_exponent(text: &[u8]) -> Option<&[u8]>
    ensures { option_copied result ≡ scan exponent text.now }
{
    let text = past(Class::Either(b'E', b'e'), text)?;
    longer(past_decimals_behind_sign(text), past_decimals(text))
}

/// Decimal digits behind a sign.
fn past_decimals_behind_sign(text: &[u8]) -> Option<&[u8]>
    ensures { option_copied result ≡ scan (one (c.Either 43 45) (decimals done)) text.now }
{
    past_decimals(past(Class::Either(b'+', b'-'), text)?)
}

/// A sign of the language.
#[inline(always)]
pub fn past_sign(language: Language, text: &[u8]) -> Option<&[u8]>
    ensures { option_copied result ≡ scan (signs language) text.now }
{
    match language {
        Language::Scl => past_plain_sign(text),
        Language::Stl => longer(past_plain_sign(text), past_typed_sign(text)),
    }
}

/// A sign of both languages.
#[inline(always)]
fn past_plain_sign(text: &[u8]) -> Option<&[u8]>
    ensures { option_copied result ≡ scan sign text.now }
{
    longer(past(Class::Sign, text), past_pair(text))
}

/// One of two bytes, the first being this and the second of the class.
#[inline(always)]
fn past_two(first: u8, second: Class, text: &[u8]) -> Option<&[u8]>
    ensures { option_copied result ≡ scan (one (c.Byte first) (one second done)) text.now }
{
    past(second, past(Class::Byte(first), text)?)
}

/// A sign of two bytes.
#[inline(always)]
fn past_pair(text: &[u8]) -> Option<&[u8]>
    ensures { option_copied result ≡ scan pair text.now }
{
    let lesser = past_two(b'<', Class::Either(b'=', b'>'), text);
    let greater = past_two(b'>', Class::Byte(b'='), text);
    let power = past_two(b'*', Class::Byte(b'*'), text);
    let range = past_two(b'.', Class::Byte(b'.'), text);
    let output = past_two(b'=', Class::Byte(b'>'), text);
    let assignment = past_two(b':', Class::Byte(b'='), text);
    let comparison = longer(lesser, longer(greater, power));
    longer(assignment, longer(output, longer(range, comparison)))
}

/// A sign of STL with its type.
#[inline(always)]
fn past_typed_sign(text: &[u8]) -> Option<&[u8]>
    ensures { option_copied result ≡ scan typed_sign text.now }
{
    let equal = past_three(b'=', Class::Byte(b'='), text);
    let lesser = past_three(b'<', Class::Either(b'=', b'>'), text);
    let greater = past_three(b'>', Class::Byte(b'='), text);
    longer(past_step(text), longer(equal, longer(lesser, greater)))
}

/// An operator of one byte with its type.
#[inline(always)]
fn past_step(text: &[u8]) -> Option<&[u8]>
    ensures { option_copied result ≡ scan (one c.Step of_type) text.now }
{
    past(Class::Type, past(Class::Step, text)?)
}

/// An operator of two bytes with its type, the first being this and the second of the class.
#[inline(always)]
fn past_three(first: u8, second: Class, text: &[u8]) -> Option<&[u8]>
    ensures { option_copied result ≡ scan (one (c.Byte first) (one second of_type)) text.now }
{
    past(Class::Type, past_two(first, second, text)?)
}
