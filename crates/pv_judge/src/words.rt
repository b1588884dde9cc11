//! The words that a formula and lemmas take.
ghost use Rattle.std.specs.Prelude.{◌≡◌, ℕ, ◌*◌, ◌+◌, ◌<◌, ◌^◌, List, ◌++◌, map};
ghost use Rattle.pv_solver.specs.Costs.{clause_cost};
ghost use Rattle.pv_valid.specs.Validity.{first_past, first_sum_past};
ghost use Rattle.pv_judge.specs.Sums.{Sums};

use pv_cnf::{ClauseView, Formula};
use pv_log::LogView;

/// How far running sums came.
#[derive(Clone, Copy)]
pub(crate) enum Sum {
    /// Up to this one, which may be past the words and isn't looked at yet.
    UpTo(u128),
    /// To this one, the first past the words.
    Past(u128),
}

/// The sum with a clause or a line of so many literals and hints more.
fn with_cost(sum: u128, literals: usize, hints: usize, beside: u128) -> u128
    requires { sum + (beside + literals + hints) < 2 ^ 128 }
    ensures { result ≡ sum + (beside + literals + hints) }
{
    sum + (beside + literals as u128 + hints as u128)
}

/// What the variables and the clauses take, up to the first sum past the words.
fn clauses_sum(words: u64, formula: &Formula) -> Sum
    requires { formula.now.variables < 2 ^ 31 }
    ensures { (rest : List ℕ) → Sums words rest
        (first_past words (2 * formula.now.variables) (map clause_cost formula.now.clauses ++ rest)) result }
{
    let words = words as u128;
    let mut sum = 2 * formula.variables() as u128;
    for n in 0..formula.count() {
        if words < sum {
            return Sum::Past(sum);
        }
        sum = with_cost(sum, formula.clause(n + 1).len(), 0, 3);
    }
    Sum::UpTo(sum)
}

/// The first of the running sums past the words: of the variables, each clause and each line.
pub(crate) fn first_sum_past<L: LogView>(words: u64, formula: &Formula, lines: &L) -> Option<u128>
    requires { formula.now.variables < 2 ^ 31 }
    ensures { result ≡ first_sum_past words formula.now (L.all_lines lines.now) (2 * formula.now.variables) }
{
    let mut sum = match clauses_sum(words, formula) {
        Sum::Past(sum) => return Some(sum),
        Sum::UpTo(sum) => sum,
    };
    for n in 0..lines.lines() {
        if (words as u128) < sum {
            return Some(sum);
        }
        sum = with_cost(sum, lines.lits(n + 1).len(), lines.hints(n + 1).len(), 4);
    }
    if (words as u128) < sum {
        Some(sum)
    } else {
        None
    }
}
