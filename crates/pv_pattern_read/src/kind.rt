//! The kinds of patterns, which are those of a case.
ghost use Rattle.std.specs.Prelude.{◌≡◌};
ghost use Rattle.pv_pattern_read.specs.Kinds.{count_of};

use pv_case::PatternKind;

/// How many texts a pattern of this kind has.
pub fn count(kind: PatternKind) -> usize
    ensures { result ≡ count_of kind }
{
    match kind {
        PatternKind::Invariant => 1,
        PatternKind::Forbidden => 1,
        PatternKind::Implication => 2,
        PatternKind::Within => 2,
        PatternKind::Between => 3,
        PatternKind::Reach => 1,
    }
}
