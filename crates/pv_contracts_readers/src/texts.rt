//! Calls of pv_lex.
ghost use Rattle.std.specs.Prelude.{◌≡◌, ◌≤◌, length, IfOk, IfErr};
ghost use Rattle.pv_lex.specs.declared.fault.FaultKind.{FaultKind};
ghost use Rattle.pv_lex.specs.declared.fault.LexFault.TheVariants.{NoToken};
ghost use Rattle.pv_place.specs.declared.place.Place.{Place};
ghost use Rattle.pv_lex.specs.Tokens.{AreTokens, IsFault};

use pv_lex::{Language, LexFault, MAX_SOURCE, Token};
use std::alloc::Global;

/// [`pv_lex::tokens`].
pub fn tokens(
    alloc: Global,
    file: u32,
    language: Language,
    text: &[u8],
) -> Result<Vec<Token>, LexFault>
    requires { length text.now ≤ MAX_SOURCE }
    ensures found { IfOk result (λ tokens. AreTokens language file text.now tokens.items) }
    ensures refused { IfErr result (λ fault. (kind : FaultKind) (place : Place)
        → fault ≡ NoToken kind place → IsFault language file text.now kind place) }
{
    pv_lex::tokens(alloc, file, language, text)
}
