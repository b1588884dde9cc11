//! Patterns, judged at a scan by the visible cells at its beginning and at its end.
ghost use Rattle.std.specs.Prelude.{◌≡◌, All};
ghost use Rattle.pv_mean.specs.Sources.{Source};
ghost use Rattle.pv_pattern.specs.Patterns.{Pattern as A_pattern, judge, mark, implies, was_true};
ghost use Rattle.pv_pattern.specs.Reads.{reads};
ghost use Rattle.pv_pattern.specs.Terms.{IsStored};
ghost use Rattle.pv_pattern.specs.Found.{IsPatternOf, judge_terms, first_term, one_reads};

use crate::term::Term;

/// A requirement, with the names of its expressions found.
#[derive(Drop)]
pub enum Pattern {
    /// a is true at each end.
    Invariant(Term),
    /// a is false at each end.
    Forbidden(Term),
    /// Where a is true at an end, b is.
    Implication(Term, Term),
    /// Where a is true at a beginning, b is true at the same scan's end.
    Within(Term, Term),
    /// Where a was true at the end of the scan before and b is true at an end, c is true there.
    Between(Term, Term, Term),
    /// A scan is asked for at whose end a is true.
    Reach(Term),
}

fn implies(a: bool, b: bool) -> bool
    ensures { result ≡ implies a b }
{
    !a || b
}

/// Whether the scan before left the mark.
fn was_true(prev: Option<bool>) -> bool
    ensures { result ≡ was_true prev }
{
    match prev {
        Some(was) => was,
        None => false,
    }
}

impl Pattern {
    /// Whether the pattern holds at a scan that is done, by the values of all visible cells at its beginning and at its end and by
    /// the mark that the scan before left, which is none at the first scan. Of one that asks for a goal, whether it is reached.
    ///
    /// Each value lies within 64 bits, as those of all types do.
    pub fn judge(&self, prev: Option<bool>, begin: &[i128], end: &[i128]) -> bool
        requires begun { All IsStored begin.now }
        requires ended { All IsStored end.now }
        ensures { (source : Source) (p : A_pattern) → IsPatternOf source self.now p
            → result ≡ judge source p prev begin.now end.now }
    {
        self.judge_terms(prev, begin, end)
    }

    /// The mark that a scan leaves with these values at its end: whether the first expression is true there.
    pub fn mark(&self, end: &[i128]) -> bool
        requires ended { All IsStored end.now }
        ensures { (source : Source) (p : A_pattern) → IsPatternOf source self.now p
            → result ≡ mark source p end.now }
    {
        self.first().is_true(end)
    }

    /// Whether one of the expressions reads the visible cell of this number.
    pub fn reads(&self, cell: u32) -> bool
        ensures { (source : Source) (p : A_pattern) → IsPatternOf source self.now p
            → result ≡ reads source p cell }
    {
        self.one_reads(cell)
    }

    fn judge_terms(&self, prev: Option<bool>, begin: &[i128], end: &[i128]) -> bool
        requires begun { All IsStored begin.now }
        requires ended { All IsStored end.now }
        ensures { result ≡ judge_terms self.now prev begin.now end.now }
    {
        match self {
            Pattern::Invariant(a) => a.is_true(end),
            Pattern::Forbidden(a) => !a.is_true(end),
            Pattern::Implication(a, b) => implies(a.is_true(end), b.is_true(end)),
            Pattern::Within(a, b) => implies(a.is_true(begin), b.is_true(end)),
            Pattern::Between(_, b, c) => {
                implies(was_true(prev) && b.is_true(end), c.is_true(end))
            }
            Pattern::Reach(a) => a.is_true(end),
        }
    }

    fn one_reads(&self, cell: u32) -> bool
        ensures { result ≡ one_reads cell self.now }
    {
        match self {
            Pattern::Invariant(a) => a.reads(cell),
            Pattern::Forbidden(a) => a.reads(cell),
            Pattern::Implication(a, b) => a.reads(cell) || b.reads(cell),
            Pattern::Within(a, b) => a.reads(cell) || b.reads(cell),
            Pattern::Between(a, b, c) => a.reads(cell) || b.reads(cell) || c.reads(cell),
            Pattern::Reach(a) => a.reads(cell),
        }
    }

    fn first(&self) -> &Term
        ensures { result.now ≡ first_term self.now }
    {
        match self {
            Pattern::Invariant(a) => a,
            Pattern::Forbidden(a) => a,
            Pattern::Implication(a, _) => a,
            Pattern::Within(a, _) => a,
            Pattern::Between(a, _, _) => a,
            Pattern::Reach(a) => a,
        }
    }
}
