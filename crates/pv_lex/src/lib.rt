//! The tokens of SCL and STL sources.
//!
//! A text is cut into stretches without gaps, each the longest token or dropped text that begins at
//! its place. What a token looks like is a shape over classes of bytes (`specs/Shapes`), and the
//! code reads each shape forward, byte by byte, taking as many bytes of each class as stand there.
//! That this finds the longest stretch is a law on shapes.
#![tactic(auto)]

mod class;
mod context;
mod fault;
mod laws;
mod lex;
mod scan;
mod shapes;
mod stretch;
mod token;
mod value;
mod words;

pub use fault::{FaultKind, LexFault};
pub use laws::{
    line_feed_parts_tokens, next_stretch_is_one, text_determines_tokens,
    text_has_tokens_or_a_fault, tokens_lie_in_their_text,
};
pub use lex::{MAX_SOURCE, tokens};
pub use pv_place::Place;
pub use token::{Kind, Language, Token};
pub use value::{fitting_value, token_value};
