//! Clauses of at most three literals, as they are written.

ghost use Rattle.std.specs.Prelude.{◌≡◌, [], ◌∷◌};
ghost use Rattle.pv_frames.specs.Formulas.{written};
ghost use Rattle.pv_frames.specs.Short.{clauses_of};

use pv_cnf::flip;

/// A clause of at most three literals, none of which stands twice or beside its complement.
#[derive(Clone, Copy)]
pub(crate) enum Short {
    /// No clause: a literal would stand beside its complement.
    Omitted,
    One(u32),
    Two(u32, u32),
    Three(u32, u32, u32),
}

/// The clause of two literals.
pub(crate) fn two(a: u32, b: u32) -> Short
    ensures { clauses_of result ≡ written (a ∷ b ∷ []) }
{
    if b == flip(a) {
        Short::Omitted
    } else if b == a {
        Short::One(a)
    } else {
        Short::Two(a, b)
    }
}

/// The clause of three literals.
pub(crate) fn three(a: u32, b: u32, c: u32) -> Short
    ensures { clauses_of result ≡ written (a ∷ b ∷ c ∷ []) }
{
    if b == flip(a) || c == flip(a) || c == flip(b) {
        Short::Omitted
    } else if c == a || c == b {
        two(a, b)
    } else if b == a {
        Short::Two(a, c)
    } else {
        Short::Three(a, b, c)
    }
}
