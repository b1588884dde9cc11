//! Calls of pv_ll.
ghost use Rattle.std.specs.Prelude.{IfOk, IsTrue};
ghost use Rattle.pv_ll.specs.Turns.{IsExact};
ghost use Rattle.pv_ll.specs.Table.{grammar_of};
ghost use Rattle.pv_ll.specs.Check.{is_ll1};
ghost use Rattle.pv_ll.specs.Reading.{answer_of};

use pv_ll::{Language, Turn};
use std::alloc::{AllocError, Global};

/// [`pv_ll::recognize`].
pub fn recognize(
    alloc: Global,
    language: &Language,
    acts: &[bool],
    kinds: &[u8],
) -> Result<Result<Vec<Turn>, usize>, AllocError>
    requires { IsTrue (is_ll1 language.now) }
    ensures { IfOk result (λ answer. IsExact (grammar_of language.now) language.now.start acts.now kinds.now (answer_of answer)) }
{
    pv_ll::recognize(alloc, language, acts, kinds)
}
