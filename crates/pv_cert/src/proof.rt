//! The proofs of a certificate: queries, chains of reductions, logs.
use pv_log::{Log, Numbers};

/// What a proof refutes (k-induction after Sheeran, Singh and Stålmarck).
#[derive(Clone, Copy, Debug, PartialEq, Eq)]
pub enum Query {
    /// A run from the start fails first at this scan, from 1.
    Base(u32),
    /// From some state so many scans don't fail, and the next one does.
    Step(u32),
}

/// How the machine was made smaller before the query was asked.
#[derive(Debug, Drop)]
pub struct Chain {
    /// Cells that never change were replaced by their values.
    pub constants: bool,
    /// The cells that may take any value at any time, rising.
    pub havoc: Numbers,
    /// Cells that nothing observed depends on were left out.
    pub cone: bool,
}

/// A query, how its machine was made smaller, and a log that refutes its formula.
#[derive(Debug, Drop)]
pub struct Proof {
    /// What is refuted.
    pub query: Query,
    /// The reductions of its machine.
    pub chain: Chain,
    /// The lines that lead from the query's formula to the empty clause.
    pub log: Log,
}
