//! Classes of bytes.
ghost use Rattle.std.specs.Prelude.{◌≡◌};
ghost use Rattle.pv_lex.specs.Classes.{has, is_space, is_blank, is_letter, is_word_byte, is_hex, is_area, is_width, is_sign, is_step, is_bracket, is_mark};

/// A class of bytes. Letters are those of ASCII, in either case.
#[derive(Clone, Copy)]
pub enum Class {
    /// This byte.
    Byte(u8),
    /// One of these two bytes.
    Either(u8, u8),
    /// Blank, tab, carriage return, line feed and form feed.
    Space,
    /// Blank and tab.
    Blank,
    /// A letter or `_`.
    Letter,
    /// A letter, a digit or `_`.
    WordByte,
    /// A byte that ends a word and no line.
    WordEnd,
    /// A decimal digit.
    Digit,
    /// A hexadecimal digit.
    Hex,
    /// An octal digit.
    Octal,
    /// The area of an address: I, Q or M.
    Area,
    /// The width of an address: B, W or D.
    Width,
    /// A byte that may stand between quotes: all but a quote and a line feed.
    Quotable,
    /// A byte that may stand between braces.
    Braced,
    /// A byte that doesn't end a line.
    Inline,
    /// A sign of one byte.
    Sign,
    /// An operator that STL writes with a type: `>`, `<`, `+`, `-`, `*` and `/`.
    Step,
    /// The type of an operator of STL: I or D.
    Type,
    /// No byte.
    Nothing,
}

impl Class {
    /// Whether the byte is of the class.
    #[inline(always)]
    pub fn has(self, byte: u8) -> bool
        ensures { result ≡ has self byte }
    {
        match self {
            Class::Byte(other) => byte == other,
            Class::Either(one, other) => byte == one || byte == other,
            Class::Space => is_space(byte),
            Class::Blank => is_blank(byte),
            Class::Letter => is_letter(byte),
            Class::WordByte => is_word_byte(byte),
            Class::WordEnd => !(is_word_byte(byte) || byte == b'\n'),
            Class::Digit => byte.is_ascii_digit(),
            Class::Hex => is_hex(byte),
            Class::Octal => b'0' <= byte && byte <= b'7',
            Class::Area => is_area(byte),
            Class::Width => is_width(byte),
            Class::Quotable => !(byte == b'"' || byte == b'\n'),
            Class::Braced => byte != b'}',
            Class::Inline => byte != b'\n',
            Class::Sign => is_sign(byte),
            Class::Step => is_step(byte),
            Class::Type => byte == b'I' || byte == b'i' || byte == b'D' || byte == b'd',
            Class::Nothing => false,
        }
    }
}

/// Whether the byte is white space.
#[inline(always)]
fn is_space(byte: u8) -> bool
    ensures { result ≡ is_space byte }
{
    byte == b' ' || byte == b'\t' || byte == b'\r' || byte == b'\n' || byte == b'\x0c'
}

/// Whether the byte is a blank or a tab.
#[inline(always)]
fn is_blank(byte: u8) -> bool
    ensures { result ≡ is_blank byte }
{
    byte == b' ' || byte == b'\t'
}

/// Whether the byte begins a word.
#[inline(always)]
fn is_letter(byte: u8) -> bool
    ensures { result ≡ is_letter byte }
{
    byte.is_ascii_alphabetic() || byte == b'_'
}

/// Whether the byte may stand in a word.
#[inline(always)]
fn is_word_byte(byte: u8) -> bool
    ensures { result ≡ is_word_byte byte }
{
    byte.is_ascii_alphanumeric() || byte == b'_'
}

/// Whether the byte is a hexadecimal digit.
#[inline(always)]
fn is_hex(byte: u8) -> bool
    ensures { result ≡ is_hex byte }
{
    byte.is_ascii_digit() || b'A' <= byte && byte <= b'F' || b'a' <= byte && byte <= b'f'
}

/// Whether the byte is the area of an address.
#[inline(always)]
fn is_area(byte: u8) -> bool
    ensures { result ≡ is_area byte }
{
    byte == b'I' || byte == b'i' || byte == b'Q' || byte == b'q' || byte == b'M' || byte == b'm'
}

/// Whether the byte is the width of an address.
#[inline(always)]
fn is_width(byte: u8) -> bool
    ensures { result ≡ is_width byte }
{
    byte == b'B' || byte == b'b' || byte == b'W' || byte == b'w' || byte == b'D' || byte == b'd'
}

/// Whether the byte is a sign.
#[inline(always)]
fn is_sign(byte: u8) -> bool
    ensures { result ≡ is_sign byte }
{
    is_step(byte) || is_bracket(byte) || is_mark(byte)
}

/// Whether the byte is an operator that STL writes with a type.
#[inline(always)]
fn is_step(byte: u8) -> bool
    ensures { result ≡ is_step byte }
{
    byte == b'+' || byte == b'-' || byte == b'*' || byte == b'/' || byte == b'<' || byte == b'>'
}

/// Whether the byte is a parenthesis or a bracket.
#[inline(always)]
fn is_bracket(byte: u8) -> bool
    ensures { result ≡ is_bracket byte }
{
    byte == b'(' || byte == b')' || byte == b'[' || byte == b']'
}

/// Whether the byte is another sign.
#[inline(always)]
fn is_mark(byte: u8) -> bool
    ensures { result ≡ is_mark byte }
{
    byte == b'='
        || byte == b'&'
        || byte == b':'
        || byte == b';'
        || byte == b','
        || byte == b'.'
        || byte == b'#'
}
