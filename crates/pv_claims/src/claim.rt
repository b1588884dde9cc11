//! What certificates claim.
ghost use Rattle.std.specs.Prelude.{◌≡◌};
ghost use Rattle.pv_claims.specs.TracePart.{trace_form};

/// What a certificate claims.
#[derive(Clone, Copy, Debug, PartialEq, Eq)]
pub enum Claim {
    /// The pattern holds at every scan of every run, shown by k-induction with this k.
    Satisfied(u32),
    /// No run reaches the pattern, shown by k-induction with this k.
    Unreachable(u32),
    /// The pattern fails at this scan of a run, from 1.
    Violated(u32),
    /// A run stops with an error at this scan, from 1.
    Trapped(u32),
    /// A run reaches the pattern at this scan, from 1.
    Reached(u32),
    /// Neither was shown up to this depth.
    Depth(u32),
    /// A loop of this scan, from 1, passes the bound on its rounds.
    Loop(u32),
    /// So many lemmas were learnt, and then no more were allowed.
    Lemmas(u32),
    /// So many words of memory were wanted, more than were allowed.
    Region(u64),
}

/// Which scans show a claim.
#[derive(Clone, Copy, Debug, PartialEq, Eq)]
pub enum TraceForm {
    /// None.
    Nothing,
    /// So many from the start, with the values of the unbound params.
    Run(u64),
    /// So many from an image, with what a pattern over two scans says of the one before.
    Stretch(u64),
}

/// The scans that show this claim: N of `Violated(N)`, `Trapped(N)`, `Reached(N)` and `Loop(N)`,
/// and K + 1 of `Depth(K)`.
pub fn trace_form(claim: Claim) -> TraceForm
    ensures { result ≡ trace_form claim }
{
    match claim {
        Claim::Violated(n) | Claim::Trapped(n) | Claim::Reached(n) | Claim::Loop(n) => {
            TraceForm::Run(n as u64)
        }
        Claim::Depth(k) => TraceForm::Stretch(k as u64 + 1),
        Claim::Satisfied(_) | Claim::Unreachable(_) | Claim::Lemmas(_) | Claim::Region(_) => {
            TraceForm::Nothing
        }
    }
}
