//! From bytes to tokens.
ghost use Rattle.std.specs.Prelude.{◌≡◌, ◌≤◌, ◌+◌, ◌++◌, length, IfOk, IfErr, OnOk, ℕ, []};
ghost use Rattle.pv_lex.specs.declared.fault.FaultKind.{FaultKind};
ghost use Rattle.pv_lex.specs.declared.fault.LexFault.TheVariants.{NoToken, NoMemory};
ghost use Rattle.pv_lex.specs.declared.token.Kind.TheVariants.{End};
ghost use Rattle.pv_place.specs.declared.place.Place.{Place};
ghost use Rattle.pv_lex.specs.Tokens.{AreTokens, IsFault, token_at};
ghost use Rattle.pv_lex.specs.Scans.{next_tokens};

use crate::context::{Context, at_start, behind};
use crate::fault::LexFault;
use crate::stretch::{Next, next_in};
use crate::token::{Kind, Language, Token};
use pv_place::Place;
use std::alloc::Global;

/// The most bytes that a source has.
pub const MAX_SOURCE: usize = 4_194_304;

/// The tokens of the text of this file, ended by `End` at its length.
///
/// Its time is proportional to the text's length. `NoToken` exactly where the text has no tokens:
/// at the first place where no token and no dropped text begins, with what stands there. The rules
/// are those of the manuals of SCL and STL for S7-300/400, in the profile that the crate's README
/// gives.
pub fn tokens(
    alloc: Global,
    file: u32,
    language: Language,
    text: &[u8],
) -> Result<Vec<Token>, LexFault>
    requires { length text.now ≤ MAX_SOURCE }
    ensures found { IfOk result (λ tokens. AreTokens language file text.now tokens.items) }
    ensures refused { IfErr result (λ fault. (kind : FaultKind) (place : Place)
        → fault ≡ NoToken kind place → IsFault language file text.now kind place) }
{
    let mut tokens = Vec::new(alloc);
    let mut context = at_start();
    let mut at = 0;
    while at < text.len() {
        let (_front, rest) = text.split_at(at);
        let next = match next_in(language, context, rest) {
            Ok(next) => next,
            Err(kind) => {
                return Err(LexFault::NoToken {
                    kind,
                    place: place_at(file, at),
                });
            }
        };
        push_token(&mut tokens, file, at, next)?;
        let (bytes, _rest) = rest.split_at(next.len);
        context = behind(context, next.kind, bytes);
        at += next.len;
    }
    tokens.push(end_at(file, at))?;
    Ok(tokens)
}

/// The place of this offset.
fn place_at(file: u32, at: usize) -> Place
    requires { at ≤ MAX_SOURCE }
    ensures { result ≡ record { file = file; offset = at } }
{
    Place {
        file,
        offset: at as u32,
    }
}

/// Adds the token of the stretch that begins at `at`, where it isn't dropped.
fn push_token(tokens: &mut Vec<Token>, file: u32, at: usize, next: Next) -> Result<(), LexFault>
    requires { at + next.len ≤ MAX_SOURCE }
    ensures pushed { OnOk result (tokens.new.items ≡ tokens.old.items ++ next_tokens file at next) }
    ensures refused { IfErr result (λ fault. fault ≡ NoMemory) }
{
    if let Some(kind) = next.kind {
        tokens.push(Token {
            kind,
            place: place_at(file, at),
            len: next.len as u32,
        })?;
    }
    Ok(())
}

/// The last token.
fn end_at(file: u32, at: usize) -> Token
    requires { at ≤ MAX_SOURCE }
    ensures { result ≡ token_at file at End [] }
{
    Token {
        kind: Kind::End,
        place: place_at(file, at),
        len: 0,
    }
}
