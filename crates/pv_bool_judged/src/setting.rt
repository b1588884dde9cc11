//! What a case says beside its program.

/// What a case says beside its program.
#[derive(Clone, Copy, Debug, PartialEq, Eq)]
pub struct Setting {
    /// Whether the requirement's opposite is a goal that is to be reached.
    pub goal: bool,
    /// Whether traces may begin after a mark.
    pub looks_back: bool,
    /// The number of the last base and the last step query, at most 64.
    pub depth: u32,
    /// How many lemmas may be learned for a query.
    pub lemmas: u32,
    /// The words that a query's variables, clauses and lemmas may take.
    pub words: u64,
    /// How many gates a step circuit may have, at most `MAX_CASE_GATES`.
    pub gates: u32,
}
