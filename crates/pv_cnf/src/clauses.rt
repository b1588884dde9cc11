//! The traits of stores of clauses, of lists of clauses and of values.
ghost use Rattle.std.specs.Prelude.{◌≡◌, ◌↔◌, ℕ, Bool, true, false, ◌+◌, ◌-◌, ◌^◌, ◌<◌, ◌≤◌, List, [], ◌∷◌, ◌++◌, length, Option, IsTrue, OnOk, OnErr, slice_get, All};
ghost use Rattle.pv_cnf.specs.Literal.{variable_of};
ghost use Rattle.pv_cnf.specs.Clause.{has_outside, has_double, IsClause, AreClauses};

use std::alloc::AllocError;
use thiserror::Error;

/// Why a store doesn't take a clause: of the first four the first that applies, in this order.
#[derive(Clone, Copy, Debug, PartialEq, Eq, Error)]
pub enum PushFault {
    /// A literal's variable is 0 or past the last one.
    #[error("a variable is out of range")]
    VariableOutOfRange,
    /// A variable stands twice in the clause.
    #[error("a variable stands twice")]
    Doubled,
    /// There is no literal.
    #[error("the clause is empty")]
    Empty,
    /// The store's own space is too small: `need` is what it would take.
    #[error("the store is full, and {need} would be needed")]
    Full {
        /// The words that the store would have in use with this clause.
        need: u64,
    },
    /// The allocator has no memory left.
    #[error("out of memory")]
    NoMemory,
}

impl From<AllocError> for PushFault {
    ghost use Rattle.std.specs.Prelude.{◌≡◌};
    ghost use Rattle.pv_cnf.specs.declared.clauses.PushFault.TheVariants.{NoMemory};

    ghost from_gives = { λ _ fault. fault ≡ NoMemory };

    fn from(_: AllocError) -> PushFault {
        PushFault::NoMemory
    }
}

/// A store that clauses can be added to.
pub trait Clauses {
    /// The variables are 1 to this number.
    ghost variables: { Self → ℕ };

    /// The clauses, in the order in which they came.
    ghost clauses: { Self → List (List ℕ) };

    /// Whether it takes clauses now.
    ghost takes_clauses: { Self → Bool };

    /// For a list of all clauses, a new one at its end included: the words in use with them, where
    /// that is past what the store has. `None` where they fit.
    ghost overflow: { Self → List (List ℕ) → Option ℕ };

    /// Adds a clause at the end. After an `Err` the clauses are as before. The faults of the clause
    /// itself are found before the store's space or memory is asked for.
    fn push(&mut self, lits: &[u32]) -> Result<(), PushFault>
        requires takes { IsTrue (takes_clauses self.old) }
        requires room { length (clauses self.old) < 2 ^ 32 - 1 }
        ensures ok { OnOk result (clauses self.new ≡ clauses self.old ++ lits.now ∷ []) }
        ensures valid { OnOk result (IsClause (variables self.old) lits.now) }
        ensures err { OnErr result (clauses self.new ≡ clauses self.old) }

        ensures out_of_range { (result ≡ Err PushFault.VariableOutOfRange)
            ↔ (has_outside (variables self.old) lits.now ≡ true) }
        ensures doubled { (result ≡ Err PushFault.Doubled)
            ↔ ((has_outside (variables self.old) lits.now ≡ false) × (has_double lits.now ≡ true)) }
        ensures empty { (result ≡ Err PushFault.Empty) ↔ (lits.now ≡ []) }

        // A good clause is refused for its length alone, or for want of memory.
        ensures full { (need : ℕ) → result ≡ Err (PushFault.Full need) →
            overflow self.old (clauses self.old ++ lits.now ∷ []) ≡ Some need }
        ensures fits { OnOk result (overflow self.old (clauses self.old ++ lits.now ∷ []) ≡ None) }

        ensures variables_kept { variables self.new ≡ variables self.old }
        ensures takes_kept { takes_clauses self.new ≡ takes_clauses self.old }
        ensures overflow_kept { (all : List (List ℕ)) → overflow self.new all ≡ overflow self.old all };
}

/// A list of clauses that can be read. Each has a literal, each literal is of a variable from 1 to
/// `variables()`, and no variable stands twice in a clause.
pub trait ClauseView {
    /// The variables are 1 to this number.
    ghost variables: { Self → ℕ };

    /// The clauses in order.
    ghost clauses: { Self → List (List ℕ) };

    /// The number of the last variable.
    fn variables(&self) -> u32
        ensures { result ≡ variables self.now };

    /// How many clauses there are.
    fn count(&self) -> u32
        ensures count { result ≡ length (clauses self.now) }
        ensures valid { AreClauses (variables self.now) (clauses self.now) };

    /// The literals of clause `n`, from 1 to `count()`.
    fn clause(&self, n: u32) -> &[u32]
        requires from_one { 0 < n }
        requires to_count { n ≤ length (clauses self.now) }
        ensures value { slice_get (clauses self.now) (n - 1) ≡ Some result.now }
        ensures valid { IsClause (variables self.now) result.now }
        // The same for a caller that indexes by the variable.
        ensures in_range { All (λ lit. (0 < variable_of lit) × (variable_of lit ≤ variables self.now)) result.now };
}

/// Values of variables.
pub trait Values {
    /// The variables from 1 to this number have a value.
    ghost assigned: { Self → ℕ };

    /// The value of a variable.
    ghost truth: { Self → ℕ → Bool };

    /// The value of variable `v`, from 1 to the number of those that have one.
    fn value(&self, v: u32) -> bool
        requires from_one { 0 < v }
        requires to_last { v ≤ assigned self.now }
        ensures { result ≡ truth self.now v };
}
