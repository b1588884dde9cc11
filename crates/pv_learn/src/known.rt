//! What a checker reads: the clauses and lemmas as one list of clauses, and a log of the line at hand.
ghost use Rattle.std.specs.Prelude.{◌≡◌, ◌+◌, [], ◌∷◌};
ghost use Rattle.pv_cnf.specs.Clause.{AreClauses};
ghost use Rattle.pv_region.specs.Stored.{count_of, all_lits};
ghost use Rattle.pv_learn.specs.Learning.{line_of};

use pv_cnf::ClauseView;
use pv_log::LogView;
use pv_watch::Propagator;

/// The number of the next line.
pub fn next_id(propagator: &Propagator) -> u32
    ensures id { result ≡ count_of propagator.now.stored + 1 }
    ensures valid { AreClauses propagator.now.stored.variables (all_lits propagator.now.stored) }
{
    let region = propagator.region();
    let _ = region.used();
    let _ = region.capacity();
    region.clauses() + region.lemmas() + 1
}

/// The clauses, and behind them the lemmas.
#[derive(Clone, Copy)]
pub(crate) struct Known<'a> {
    pub(crate) propagator: &'a Propagator,
}

impl ClauseView for Known<'_> {
    ghost variables = { λ k. k.propagator.now.stored.variables };

    ghost clauses = { λ k. all_lits k.propagator.now.stored };

    fn variables(&self) -> u32 {
        self.propagator.trail().variables()
    }

    fn count(&self) -> u32 {
        next_id(self.propagator) - 1
    }

    fn clause(&self, n: u32) -> &[u32] {
        self.propagator.region().lits(n)
    }
}

/// A log of one line.
#[derive(Clone, Copy)]
pub(crate) struct Single<'a> {
    pub(crate) id: u32,
    pub(crate) lits: &'a [u32],
    pub(crate) hints: &'a [u32],
}

impl LogView for Single<'_> {
    ghost all_lines = { λ log. line_of log.id log.lits.now log.hints.now ∷ [] };

    fn lines(&self) -> u32 {
        1
    }

    fn id(&self, _n: u32) -> u32 {
        self.id
    }

    fn lits(&self, _n: u32) -> &[u32] {
        self.lits
    }

    fn hints(&self, _n: u32) -> &[u32] {
        self.hints
    }
}
