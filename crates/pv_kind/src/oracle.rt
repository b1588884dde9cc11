//! What is asked of an oracle.
ghost use Rattle.std.specs.Prelude.{◌≡◌, ℕ, ◌≤◌, true, false, List, [], IsTrue, IfOk, OnOk, OnErr};
ghost use Rattle.std.specs.List.{AllByRecursion};
ghost use Rattle.pv_cnf.specs.Clause.{Holds};
ghost use Rattle.pv_frames.specs.Pushing.{Pushes};
ghost use Rattle.pv_cert.specs.declared.proof.Query.{Query};
ghost use Rattle.pv_kind.specs.Oracles.{Encoding, IsAsked, IsTold, IsSound};
ghost use Rattle.pv_kind.specs.Refinements.{Stage, is_among, put_back};

use crate::told::{OracleFault, Told};
use pv_cert::{Chain, Query};
use pv_cnf::{Clauses, PushFault, Values};
use pv_machine::Machine;
use std::alloc::AllocError;

/// Something that puts the queries of k-induction on a machine as clauses, and tells what their values say of it.
///
/// It may ask them of a machine that was made smaller by a chain of reductions, some of which give cells any value at each scan. Where
/// a trace of the smaller machine is none of the machine itself, it tells the cells that differ, and these can be put back.
pub trait Oracle {
    /// What stands for the machine.
    type Source: Machine;

    /// What no call changes.
    ghost Fixed: { Type 0 };

    ghost fixed: { Self → Fixed };

    /// The machine that is asked of.
    ghost source: { Fixed → Self.Source };

    /// How queries are put as clauses, and which traces and cells are told.
    ghost encoding: { Fixed → Encoding };

    /// The present chain, and the cells that are abstracted.
    ghost stage: { Self → Stage };

    /// Whether the number of variables of a query was answered under the present chain.
    ghost is_ready: { Self → Query → Type 0 };

    /// The number of variables of a query's clauses under the present chain.
    fn variables(&mut self, q: Query) -> Result<u32, OracleFault>
        requires { IsAsked q }
        ensures number { IfOk result (λ n. n ≡ (encoding (fixed self.old)).variables (stage self.old).chain q) }
        ensures ready { IfOk result (λ _. is_ready self.new q) }
        ensures ready_kept { (p : Query) → is_ready self.old p → is_ready self.new p }

        // Gates comes exactly where the circuit of the chain passes the limit, running out of memory aside.
        ensures gates { result ≡ Err OracleFault.Gates → (encoding (fixed self.old)).passes (stage self.old).chain ≡ true }
        ensures fits { IfOk result (λ _. (encoding (fixed self.old)).passes (stage self.old).chain ≡ false) }

        ensures fixed_kept { fixed self.new ≡ fixed self.old }
        ensures stage_kept { stage self.new ≡ stage self.old };

    /// Pushes the query's clauses into a store without clauses. `Full` comes where a clause doesn't fit into it, with the need of the
    /// first such clause; after it, and after running out of memory, the clauses before the one that was refused stand there.
    fn push<C: Clauses>(&mut self, q: Query, into: &mut C) -> Result<(), PushFault>
        requires asked { IsAsked q }
        requires ready { is_ready self.old q }
        requires none { C.clauses into.old ≡ [] }
        requires takes { IsTrue (C.takes_clauses into.old) }
        requires variables { (encoding (fixed self.old)).variables (stage self.old).chain q ≤ C.variables into.old }
        ensures pushes { Pushes (C.overflow into.old) (C.clauses into.old)
            ((encoding (fixed self.old)).clauses (stage self.old).chain q) (C.clauses into.new) result }
        ensures variables_kept { C.variables into.new ≡ C.variables into.old }
        ensures takes_kept { C.takes_clauses into.new ≡ C.takes_clauses into.old }
        ensures overflow_kept { (all : List (List ℕ)) → C.overflow into.new all ≡ C.overflow into.old all }

        ensures ready_kept { (p : Query) → is_ready self.old p → is_ready self.new p }
        ensures fixed_kept { fixed self.new ≡ fixed self.old }
        ensures stage_kept { stage self.new ≡ stage self.old };

    /// The present chain.
    fn chain(&self) -> &Chain
        ensures { result.now ≡ (stage self.now).chain };

    /// What values that make the query's clauses hold say of the machine.
    fn told<V: Values>(&mut self, q: Query, values: &V) -> Result<Told, AllocError>
        requires asked { IsAsked q }
        requires ready { is_ready self.old q }
        requires assigned { (encoding (fixed self.old)).variables (stage self.old).chain q ≤ V.assigned values.now }
        requires hold { Holds (V.truth values.now) ((encoding (fixed self.old)).clauses (stage self.old).chain q) }
        ensures told { IfOk result (IsTold (encoding (fixed self.old)) (stage self.old) q) }

        ensures ready_kept { (p : Query) → is_ready self.old p → is_ready self.new p }
        ensures fixed_kept { fixed self.new ≡ fixed self.old }
        ensures stage_kept { stage self.new ≡ stage self.old };

    /// Takes abstracted cells out of the list of those and out of the chain.
    fn put_back(&mut self, cells: &[u32]) -> Result<(), AllocError>
        requires { AllByRecursion (λ cell. IsTrue (is_among (stage self.old).abstracted cell)) cells.now }
        ensures ok { OnOk result (stage self.new ≡ put_back cells.now (stage self.old)) }
        ensures err { OnErr result (stage self.new ≡ stage self.old) }
        ensures fixed_kept { fixed self.new ≡ fixed self.old };

    ghost sound: { (o : Self) → IsSound (Self.Source.machine (source (fixed o))) (encoding (fixed o)) (stage o).chain (is_ready o) };
}
