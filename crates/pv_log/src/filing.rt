//! Clauses filed by one of their literals, to find those within others.
ghost use Rattle.std.specs.Prelude.{◌≡◌, ℕ, ◌+◌, ◌*◌, ◌<◌, ◌≤◌, ◌^◌, true, All, List, [], ◌∷◌, ◌++◌, length, IfOk, OnOk, slice_index_or};
ghost use Rattle.pv_log.specs.Propagation.{is_false};
ghost use Rattle.pv_log.specs.Filing.{Filed, IsFiled};

use std::alloc::{AllocError, Global};
use std::marker::Model;

/// Clauses by number, from 1, each filed under one of its literals. A clause that has all its literals among
/// some others is then found under one of these.
#[derive(Drop)]
pub(crate) struct Filing {
    /// By literal: the clause that was filed last under it, or 0. Under 0 are the clauses without a literal.
    heads: Vec<u32>,
    /// By literal: how many clauses are filed under it.
    sizes: Vec<u32>,
    /// By clause: the one filed before it under the same literal, or 0.
    nexts: Vec<u32>,
}

impl Model for Filing {
    ghost Value = { Filed };

    ghost view = { λ a. record { heads = a.heads.items; nexts = a.nexts.items } };

    ghost invariant = { λ a. length a.sizes.items ≡ length a.heads.items };
}

impl Filing {
    /// No clauses yet, over this many variables.
    pub(crate) fn new(alloc: Global, variables: u32) -> Result<Self, AllocError>
        ensures { IfOk result (λ filing. IsFiled variables filing []) }
    {
        let literals = 2 * variables as usize + 2;
        let heads = vec![in alloc; 0; literals]?;
        let sizes = vec![in alloc; 0; literals]?;
        let nexts = vec![in alloc; 0; 1]?;
        Ok(Filing {
            heads,
            sizes,
            nexts,
        })
    }

    /// The clause that was filed last under a literal, or 0.
    pub(crate) fn last(&self, lit: u32) -> u32
        requires { lit < length self.now.heads }
        ensures { result ≡ slice_index_or self.now.heads lit 0 }
    {
        self.heads[lit as usize]
    }

    /// The clause that was filed before this one under the same literal, or 0.
    pub(crate) fn before(&self, id: u32) -> u32
        requires { id < length self.now.nexts }
        ensures { result ≡ slice_index_or self.now.nexts id 0 }
    {
        self.nexts[id as usize]
    }

    /// The literal under which the fewest clauses are filed, or 0 if there is none.
    fn rarest(&self, lits: &[u32]) -> u32
        requires { All (λ lit. lit < length self.now.heads) lits.now }
        ensures { is_false (0 ∷ lits.now) result ≡ true }
    {
        let mut rarest = 0;
        let mut fewest = u32::MAX;
        for lit in lits {
            let size = self.sizes[*lit as usize];
            if size < fewest {
                rarest = *lit;
                fewest = size;
            }
        }
        rarest
    }

    /// Files the next clause.
    pub(crate) fn add(&mut self, lits: &[u32]) -> Result<(), AllocError>
        requires fits { length self.old.nexts < 2 ^ 32 }
        requires some { 0 < length self.old.heads }
        requires inside { All (λ lit. lit < length self.old.heads) lits.now }
        ensures filed { OnOk result ((variables : ℕ) (clauses : List (List ℕ))
            → IsFiled variables self.old clauses
            → IsFiled variables self.new (clauses ++ lits.now ∷ [])) }
    {
        let lit = self.rarest(lits) as usize;
        let id = self.nexts.len() as u32;
        self.nexts.push(self.heads[lit])?;
        self.heads[lit] = id;
        self.sizes[lit] = self.sizes[lit].saturating_add(1);
        Ok(())
    }
}
