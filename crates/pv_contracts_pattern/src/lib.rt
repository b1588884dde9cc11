//! Contract tests of `pv_pattern`.
//!
//! Each public call whose clauses are no equation of what it answers stands here once more, with the library's clauses, by the call itself, and
//! the value of a term beside them. An edit of `must-fail` gives a wrong answer in its place.
#![tactic(auto)]

ghost use Rattle.pv_mean.specs.Sources.{Source};
ghost use Rattle.pv_pattern.specs.Found.{IsPatternOf};
ghost use Rattle.pv_pattern.specs.Patterns.{Pattern as A_pattern, judge, mark};
ghost use Rattle.pv_pattern.specs.Reads.{reads};
ghost use Rattle.pv_pattern.specs.Terms.{IsStored, term_value};
ghost use Rattle.std.specs.Prelude.{All, ◌≡◌};

use pv_pattern::{Pattern, Term};

/// [`Pattern::judge`].
pub fn judge(pattern: &Pattern, prev: Option<bool>, begin: &[i128], end: &[i128]) -> bool
    requires begun { All IsStored begin.now }
    requires ended { All IsStored end.now }
    ensures { (source : Source) (p : A_pattern) → IsPatternOf source pattern.now p
        → result ≡ judge source p prev begin.now end.now }
{
    pattern.judge(prev, begin, end)
}

/// [`Pattern::mark`].
pub fn mark(pattern: &Pattern, end: &[i128]) -> bool
    requires ended { All IsStored end.now }
    ensures { (source : Source) (p : A_pattern) → IsPatternOf source pattern.now p
        → result ≡ mark source p end.now }
{
    pattern.mark(end)
}

/// [`Pattern::reads`].
pub fn reads(pattern: &Pattern, cell: u32) -> bool
    ensures { (source : Source) (p : A_pattern) → IsPatternOf source pattern.now p
        → result ≡ reads source p cell }
{
    pattern.reads(cell)
}

/// [`Term::value`].
pub fn value(term: &Term, values: &[i128]) -> i64
    requires { All IsStored values.now }
    ensures { result ≡ term_value values.now term.now }
{
    term.value(values)
}
