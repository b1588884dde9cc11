//! A formula as a list of clauses.
ghost use Rattle.std.specs.Prelude.{◌≡◌, ◌+◌, ◌^◌, ◌<◌, ◌≤◌, [], ◌∷◌, ◌++◌, length, slice_get, slice_index, IfOk, OnOk, OnErr};
ghost use Rattle.pv_cnf.specs.Clause.{Cnf};
ghost use Rattle.pv_cnf.specs.Fault.{first_fault};
ghost use Rattle.pv_cnf.specs.Layout.{LeadTo, parts_from};

use crate::check::fault_of;
use crate::clauses::{ClauseView, Clauses, PushFault};
use std::alloc::{AllocError, Global};
use std::marker::Model;

/// A formula in conjunctive normal form: a list of clauses over the variables 1 to a number.
///
/// All literals lie in one vector and the places where clauses end in another.
#[derive(Debug, Drop)]
pub struct Formula {
    variables: u32,
    lits: Vec<u32>,
    /// For each clause the number of literals up to its end.
    ends: Vec<usize>,
    /// A mark for 0 and each variable; `push` sets those of a clause and takes them away again.
    marks: Vec<bool>,
}

impl Model for Formula {
    ghost use Rattle.pv_cnf.specs.Clause.{Cnf};
    ghost use Rattle.pv_cnf.specs.Layout.{formula_of, IsLaidOut};

    ghost Value = { Cnf };

    ghost view = { λ f. formula_of f.variables f.lits.items f.ends.items };

    ghost invariant = { λ f. IsLaidOut f.variables f.lits.items f.ends.items f.marks.items };
}

impl Formula {
    /// A formula with no clause over the variables 1 to `variables`, at most 2,147,483,647.
    pub fn make(alloc: Global, variables: u32) -> Result<Formula, AllocError>
        requires { variables < 2 ^ 31 }
        ensures { IfOk result (λ f. f ≡ record { variables = variables; clauses = [] }) }
    {
        Ok(Formula {
            variables,
            lits: Vec::new(alloc),
            ends: Vec::new(alloc),
            marks: vec![in alloc; false; variables as usize + 1]?,
        })
    }

    /// What is wrong with a clause over the formula's variables, whether or not there is room for it: the
    /// first that applies of what `push` finds before it asks for space or memory.
    pub fn fault(&mut self, lits: &[u32]) -> Option<PushFault>
        ensures fault { result ≡ first_fault self.old.variables lits.now }
        ensures unchanged { self.new ≡ self.old }
    {
        fault_of(self.variables, &mut self.marks, lits)
    }
}

/// Adds a list of literals and the place where it ends. An `Err` changes neither vector.
fn append(all: &mut Vec<u32>, ends: &mut Vec<usize>, lits: &[u32]) -> Result<(), AllocError>
    ensures lits { OnOk result (all.new.items ≡ all.old.items ++ lits.now) }
    ensures ends { OnOk result (ends.new.items ≡ ends.old.items ++ length all.new.items ∷ []) }
    ensures lits_kept { OnErr result (all.new.items ≡ all.old.items) }
    ensures ends_kept { OnErr result (ends.new.items ≡ ends.old.items) }
{
    let before = all.len();
    all.extend_from_slice(lits)?;
    if ends.push(all.len()).is_err() {
        all.truncate(before);
        return Err(AllocError);
    }
    Ok(())
}

/// Where part `n`, counted from 0, begins in a list that is cut at these ends.
fn start_of(ends: &[usize], n: usize) -> usize
    requires { n ≤ length ends.now }
    ensures { result ≡ slice_index (0 ∷ ends.now) n }
{
    if n == 0 { 0 } else { ends[n - 1] }
}

/// Part `n`, counted from 0, of a list that is cut at these ends.
fn part<'a>(all: &'a [u32], ends: &[usize], n: usize) -> &'a [u32]
    requires covered { LeadTo 0 ends.now (length all.now) }
    requires there { n < length ends.now }
    ensures { slice_get (parts_from 0 ends.now all.now) n ≡ Some result.now }
{
    let start = start_of(ends, n);
    let end = ends[n];
    &all[start..end]
}

impl Clauses for Formula {
    ghost use Rattle.std.specs.Prelude.{true, None};

    ghost variables = { λ f. f.variables };

    ghost clauses = { λ f. f.clauses };

    ghost takes_clauses = { λ _. true };

    ghost overflow = { λ _ _. None };

    fn push(&mut self, lits: &[u32]) -> Result<(), PushFault> {
        if let Some(fault) = fault_of(self.variables, &mut self.marks, lits) {
            return Err(fault);
        }
        append(&mut self.lits, &mut self.ends, lits)?;
        Ok(())
    }
}

impl ClauseView for Formula {
    ghost variables = { λ f. f.variables };

    ghost clauses = { λ f. f.clauses };

    fn variables(&self) -> u32 {
        self.variables
    }

    fn count(&self) -> u32 {
        self.ends.len() as u32
    }

    fn clause(&self, n: u32) -> &[u32] {
        part(&self.lits, &self.ends, n as usize - 1)
    }
}
