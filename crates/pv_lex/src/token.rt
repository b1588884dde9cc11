//! Tokens.
use pv_place::Place;

/// The language of a source.
#[derive(Clone, Copy, PartialEq, Eq, Debug)]
pub enum Language {
    Scl,
    Stl,
}

/// The kind of a token.
#[derive(Clone, Copy, PartialEq, Eq, Debug)]
pub enum Kind {
    /// A letter or `_`, then letters, digits and `_`.
    Word,
    /// A text between two `"` on one line.
    Quoted,
    /// A whole number in any of its forms, as `10`, `16#FF`, `INT#-5` or `T#1s500ms`.
    Number,
    /// A number with a point, as `1.5E3`.
    Real,
    /// An input, output or flag: a bit, byte, word or double word, as `%I0.1` or `mb 10`.
    Address,
    /// An operator or a delimiter.
    Sign,
    /// The end of the text.
    End,
}

/// A token. Its text is the slice of its source, and a number's value is told by
/// [`token_value`](crate::token_value).
#[derive(Clone, Copy, PartialEq, Eq, Debug)]
pub struct Token {
    pub kind: Kind,
    /// Where it begins.
    pub place: Place,
    /// Its number of bytes.
    pub len: u32,
}

// A token's bytes.
const _: () = prove!(size_of::<Token>() == 16);
