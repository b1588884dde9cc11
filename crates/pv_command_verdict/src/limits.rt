//! The limits of a decision.
ghost use Rattle.std.specs.Prelude.{◌≡◌};

use pv_case::Case;
use pv_kind::Limits;

/// The limits within which a case is decided.
pub(crate) fn limits_of(case: &Case) -> Limits
    ensures depth { result.depth ≡ case.now.limits.depth }
    ensures lemmas { result.lemmas ≡ case.now.limits.lemmas }
    ensures words { result.words ≡ case.now.limits.region_words }
{
    Limits {
        depth: case.limits.depth,
        lemmas: case.limits.lemmas,
        words: case.limits.region_words,
    }
}
