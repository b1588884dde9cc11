//! What a solver answers.

/// What a solver answers.
#[derive(Clone, Copy, Debug, PartialEq, Eq)]
pub enum Answer {
    /// The values make the clauses hold.
    Sat,
    /// The log is accepted: no values make the clauses hold.
    Unsat,
    /// As many lemmas were learned as may be, and one more would be needed.
    SpentLemmas,
    /// One more lemma would be needed, for which there is no room.
    SpentRegion {
        /// The words that would be in use with it.
        need: u64,
    },
}
