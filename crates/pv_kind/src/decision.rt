//! What is decided, and within which limits.
use pv_cert::Proofs;
use pv_claims::Trace;
use pv_log::Line;

/// The limits of a decision.
#[derive(Clone, Copy)]
pub struct Limits {
    /// The number of the last base and the last step query, at most 64.
    pub depth: u32,
    /// How many lemmas may be learned for a query, at least one.
    pub lemmas: u32,
    /// The words that a query's variables, clauses and lemmas may take, at most 250,000,000.
    pub words: u64,
}

/// How a decision ends.
#[derive(Drop)]
pub enum End {
    /// No run fails: base up to this number and its step query are refuted.
    Proved(u32),
    /// A run fails at this scan, from 1, and none before it.
    Failed(u32, Trace),
    /// The step query of the depth is met.
    Depth(Trace),
    /// For the last proof's query more lemmas would be needed than may be learned.
    SpentLemmas,
    /// For the last proof's query more words would be needed than there are: so many, by the variables and clauses alone or by this
    /// lemma.
    SpentRegion(u64, Option<Line>),
}

/// What was decided, and the proofs of the queries that were refuted; where a limit was spent, the last is of the query for which it
/// was, with its log so far.
#[derive(Drop)]
pub struct Decision {
    /// How it ended.
    pub end: End,
    /// The proofs, in the order in which their queries were asked.
    pub proofs: Proofs,
}
