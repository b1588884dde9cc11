//! The oracle of the tests.
ghost use Rattle.std.specs.Prelude.{◌≡◌, ◌≤◌, [], length};

use crate::countdown::Countdown;
use crate::lists::{push_all, without};
use pv_cert::{Chain, Query};
use pv_claims::{CellValues, ScanInputs, Trace};
use pv_cnf::{ClauseView, Clauses, Formula, PushFault, Values};
use pv_kind::{Oracle, OracleFault, Told};
use pv_log::Numbers;
use std::alloc::{AllocError, Global};

/// A countdown. A query that it meets has no clauses; another has the first formula, or from a number on the second. As long as there are
/// two abstracted cells the first is told to differ.
#[derive(Drop)]
pub struct Toy {
    pub alloc: Global,
    pub machine: Countdown,
    pub none: Formula,
    pub easy: Formula,
    pub hard: Formula,
    /// From this number on queries that aren't met have the second formula.
    pub hard_from: u32,
    /// Whether the circuit passes the limit once fewer than two cells are abstracted.
    pub limited: bool,
    pub chain: Chain,
    ghost empty: { none.clauses ≡ [] },
    ghost none_fits: { none.variables ≤ easy.variables },
    ghost hard_fits: { hard.variables ≤ easy.variables },
}

impl Toy {
    ghost use Rattle.std.specs.Prelude.{◌≡◌, ◌≤◌, ℕ, true, false, nat_eq, length};
    ghost use Rattle.pv_rows_kind.specs.Toys.{setting_of, clauses_of};

    /// The formula of a query.
    fn formula(&self, q: Query) -> &Formula
        ensures clauses { result.now.clauses ≡ clauses_of (setting_of self.now) q }
        ensures fits { result.now.variables ≤ self.now.easy.variables }
    {
        let number = match q {
            Query::Base(k) => k,
            Query::Step(k) => k,
        };
        if self.machine.is_met(q) {
            &self.none
        } else if number < self.hard_from {
            &self.easy
        } else {
            &self.hard
        }
    }
}

impl Oracle for Toy {
    ghost use Rattle.pv_kind.specs.Refinements.{Stage};
    ghost use Rattle.pv_rows_kind.specs.Toys.{Setting, setting_of, encoding_of, stage_of};
    ghost use Rattle.pv_rows_kind.specs.Sound.{sound_of};

    type Source = Countdown;

    ghost Fixed = { Setting };

    ghost fixed = { λ o. setting_of o };

    ghost source = { λ s. s.machine };

    ghost encoding = { λ s. encoding_of s };

    ghost stage = { λ o. stage_of o.chain };

    ghost is_ready = { λ o q. Unit {0} };

    fn variables(&mut self, q: Query) -> Result<u32, OracleFault> {
        let _ = q;
        if self.limited && self.chain.havoc.as_slice().len() < 2 {
            return Err(OracleFault::Gates);
        }
        Ok(self.easy.variables())
    }

    fn push<C: Clauses>(&mut self, q: Query, into: &mut C) -> Result<(), PushFault> {
        push_all(self.formula(q), into)
    }

    fn chain(&self) -> &Chain {
        &self.chain
    }

    #[tactic(auto, using(crate::proofs::Told::first_differs))]
    fn told<V: Values>(&mut self, q: Query, values: &V) -> Result<Told, AllocError> {
        let _ = values;
        let cells = self.chain.havoc.as_slice();
        if cells.len() >= 2 {
            let cells = Numbers::from_slice(self.alloc, &cells[..1])?;
            return Ok(Told::Differs { scan: 1, cells });
        }
        if self.machine.is_met(q) {
            Ok(Told::Same(Trace {
                image: None,
                prev: None,
                params: CellValues::new(self.alloc),
                inputs: ScanInputs::new(self.alloc),
            }))
        } else {
            Err(AllocError)
        }
    }

    fn put_back(&mut self, cells: &[u32]) -> Result<(), AllocError> {
        let left = without(self.alloc, cells, self.chain.havoc.as_slice())?;
        self.chain.havoc = left;
        Ok(())
    }

    ghost sound = { λ o. sound_of (setting_of o) o.chain (λ q. Unit {0}) o.machine.within };
}
