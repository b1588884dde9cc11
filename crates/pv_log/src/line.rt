//! A line of a log.
use crate::numbers::Numbers;

/// A line of a log: a clause that is claimed to follow, and the clauses that show it.
#[derive(Debug, Drop)]
pub struct Line {
    /// The clause's id: ids count the formula's clauses from 1, and then the lines.
    pub id: u32,
    /// The clause's literals: `2v` for variable `v`, `2v + 1` for its negation.
    pub lits: Numbers,
    /// The ids of the earlier clauses that lead to a false one, in order.
    pub hints: Numbers,
}
