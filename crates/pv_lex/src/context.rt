//! Where a place of a text lies: what the tokens before it say of header lines.
ghost use Rattle.std.specs.Prelude.{◌≡◌, length};
ghost use Rattle.std.specs.List.{list_all};
ghost use Rattle.pv_lex.specs.Classes.{has};
ghost use Rattle.pv_lex.specs.declared.class.Class.TheVariants.{Inline};
ghost use Rattle.pv_lex.specs.Tokens.{behind, head_behind, is_joint, at_start, is_header};

use crate::class::Class;
use crate::scan::{begins, skip};
use crate::token::{Kind, Language};
use crate::words::{is_closing, is_header_word, is_opening, is_title};

/// The context of a place.
#[derive(Clone, Copy)]
pub struct Context {
    /// Whether it lies in a block's head.
    pub in_head: bool,
    /// Whether a token stands before it on its line.
    pub on_line: bool,
    /// Whether the token before it is `#` or `.`.
    pub joined: bool,
}

/// The context of a text's begin.
pub fn at_start() -> Context
    ensures { result ≡ at_start }
{
    Context {
        in_head: false,
        on_line: false,
        joined: false,
    }
}

/// The context behind a stretch of this kind and of these bytes.
pub fn behind(context: Context, kind: Option<Kind>, bytes: &[u8]) -> Context
    ensures { result ≡ behind context kind bytes.now }
{
    match kind {
        None => Context {
            in_head: context.in_head,
            on_line: context.on_line && is_in_line(bytes),
            joined: context.joined,
        },
        Some(Kind::Word) => Context {
            in_head: head_behind(context, bytes),
            on_line: true,
            joined: false,
        },
        Some(Kind::Sign) => Context {
            in_head: context.in_head,
            on_line: true,
            joined: is_joint(bytes),
        },
        Some(_) => Context {
            in_head: context.in_head,
            on_line: true,
            joined: false,
        },
    }
}

/// Whether no line ends in the bytes.
fn is_in_line(bytes: &[u8]) -> bool
    ensures { result ≡ list_all (has Inline) bytes.now }
{
    bytes.iter().all(|byte| Class::Inline.has(*byte))
}

/// Whether the bytes are `#` or `.`.
fn is_joint(bytes: &[u8]) -> bool
    ensures { result ≡ is_joint bytes.now }
{
    bytes.len() == 1 && (bytes[0] == b'#' || bytes[0] == b'.')
}

/// Whether a place lies in a block's head behind this word.
#[tactic(auto, unfolding(crate::specs::Tokens::head_behind))]
fn head_behind(context: Context, word: &[u8]) -> bool
    ensures { result ≡ head_behind context word.now }
{
    if context.joined {
        context.in_head
    } else if is_opening(word) {
        true
    } else if is_closing(word) {
        false
    } else {
        context.in_head
    }
}

/// Whether the word, before the rest of its line, begins a header line.
#[tactic(auto, unfolding(crate::specs::Tokens::is_header))]
pub fn is_header(language: Language, context: Context, word: &[u8], line: &[u8]) -> bool
    ensures { result ≡ is_header language context word.now line.now }
{
    if context.on_line {
        return false;
    }
    if context.in_head && is_header_word(word) {
        return true;
    }
    match language {
        Language::Scl => false,
        Language::Stl => is_title(word) && begins(Class::Byte(b'='), skip(Class::Blank, line)),
    }
}
