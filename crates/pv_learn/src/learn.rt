//! What is learned of a conflict. The clause of the analysis is taken where it passes a check: the log's own
//! checker follows its hints, and before the last decision it would have been unit. What is unit where
//! propagation had ended contains no earlier clause, so it is new. Should it not pass, the trail itself up to
//! the last decision is taken: its reasons are the hints as they stand, so that this clause is proved to pass.
//! Without a decision it is the empty clause.
ghost use Rattle.std.specs.Prelude.{◌≡◌, ◌+◌, ◌-◌, ◌<◌, ◌≤◌, [], ◌∷◌, ◌++◌, length, take, drop, false, IsTrue, vec_capacity};
ghost use Rattle.pv_cnf.specs.Clause.{has_outside, has_double};
ghost use Rattle.pv_log.specs.Follows.{Follows, IsAccepted, LacksEmpty};
ghost use Rattle.pv_region.specs.Stored.{count_of, all_lits};
ghost use Rattle.pv_watch.specs.Trail.{IsSound};
ghost use Rattle.pv_watch.specs.Quiet.{IsConflict};
ghost use Rattle.pv_learn.specs.Learning.{line_of, HasRoom, KeepsRoom, IsAsserting, IsNext, IsLast};

use crate::analysis::Analysis;
use crate::draft::Draft;
use crate::known::{Known, Single, next_id};
use crate::look::{Look, look_at};
use pv_log::{Checker, Verdict};
use pv_order::Order;
use pv_watch::{Propagator, Trail};

/// What a checker says of a log of the line at hand alone.
fn verdict(checker: &mut Checker, propagator: &Propagator, draft: &Draft) -> Verdict
    requires { checker.old ≡ propagator.now.stored.variables }
    ensures checker { checker.new ≡ checker.old }
    ensures follows { result ≡ Verdict.NoEmpty → LacksEmpty (Follows propagator.now.stored.variables)
        (all_lits propagator.now.stored)
        (line_of (count_of propagator.now.stored + 1) draft.now.lits.items draft.now.hints.items ∷ []) }
    ensures accepted { result ≡ Verdict.Accepted → IsAccepted (Follows propagator.now.stored.variables)
        (all_lits propagator.now.stored)
        (line_of (count_of propagator.now.stored + 1) draft.now.lits.items draft.now.hints.items ∷ []) }
{
    let single = Single {
        id: next_id(propagator),
        lits: draft.lits.as_slice(),
        hints: draft.hints.as_slice(),
    };
    checker.check(&Known { propagator }, &single)
}

/// Whether the line at hand may be learned: it follows, isn't empty, and is unit where the first `start` literals
/// of the trail are false.
fn is_asserting(checker: &mut Checker, propagator: &Propagator, start: usize, draft: &Draft) -> bool
    requires checker { checker.old ≡ propagator.now.stored.variables }
    requires there { start ≤ length propagator.now.path.falses }
    ensures checker { checker.new ≡ checker.old }
    ensures asserting { IsTrue result →
        IsAsserting propagator.now.stored.variables (all_lits propagator.now.stored) start
        propagator.now.path.falses
        (line_of (count_of propagator.now.stored + 1) draft.now.lits.items draft.now.hints.items) }
{
    match verdict(checker, propagator, draft) {
        Verdict::NoEmpty => {}
        _ => return false,
    }
    match look_at(propagator.trail(), start, draft.lits.as_slice()) {
        Look::Unit(_) => true,
        _ => false,
    }
}

/// Whether the line at hand ends the log: it follows and is empty.
fn is_last(checker: &mut Checker, propagator: &Propagator, draft: &Draft) -> bool
    requires { checker.old ≡ propagator.now.stored.variables }
    ensures checker { checker.new ≡ checker.old }
    ensures last { IsTrue result → IsLast propagator.now.stored.variables (all_lits propagator.now.stored)
        (line_of (count_of propagator.now.stored + 1) draft.now.lits.items draft.now.hints.items) }
{
    match verdict(checker, propagator, draft) {
        Verdict::Accepted => true,
        _ => false,
    }
}

/// Makes the line at hand that of the first `from` literals of the trail, with the reasons of the others as its
/// hints.
fn take_whole(draft: &mut Draft, trail: &Trail, from: usize, conflict: u32)
    requires from { from ≤ length trail.now.falses }
    requires room { HasRoom trail.now.variables (vec_capacity draft.old.lits) (vec_capacity draft.old.hints) }
    ensures lits { draft.new.lits.items ≡ take from trail.now.falses }
    ensures hints { draft.new.hints.items
        ≡ take (length trail.now.falses - from) (drop from trail.now.reasons) ++ conflict ∷ [] }
    ensures room { KeepsRoom draft.old draft.new }
    ensures inside { has_outside trail.now.variables trail.now.falses ≡ false }
    ensures distinct { has_double trail.now.falses ≡ false }
    ensures reasons { length trail.now.falses ≤ length trail.now.reasons }
{
    let falses = trail.falses();
    let reasons = trail.reasons();
    let upto = trail.len();
    draft.set(&falses[..from], &reasons[from..upto], conflict);
}

/// Makes the line at hand the lemma that is learned of a conflict after a decision.
pub fn make_lemma(
    draft: &mut Draft,
    analysis: &mut Analysis,
    checker: &mut Checker,
    propagator: &Propagator,
    order: &mut Order,
    conflict: u32,
)
    requires checker { checker.old ≡ propagator.now.stored.variables }
    requires decided { 0 < length propagator.now.path.starts }
    requires sound { IsSound (all_lits propagator.now.stored) propagator.now.path }
    requires conflict { IsConflict (all_lits propagator.now.stored) propagator.now.path.falses conflict }
    requires room { HasRoom propagator.now.stored.variables
        (vec_capacity draft.old.lits) (vec_capacity draft.old.hints) }
    ensures checker { checker.new ≡ checker.old }
    ensures room { KeepsRoom draft.old draft.new }
    ensures next { IsNext propagator.now.stored.variables (all_lits propagator.now.stored) propagator.now.path
        (line_of (count_of propagator.now.stored + 1) draft.new.lits.items draft.new.hints.items) }
{
    let trail = propagator.trail();
    let start = trail.last_start();
    analysis.analyze(propagator, order, draft, conflict);
    if is_asserting(checker, propagator, start, draft) {
        return;
    }
    take_whole(draft, trail, start + 1, conflict);
}

/// Makes the line at hand the empty one that ends the log, of a conflict without a decision.
pub fn make_last(
    draft: &mut Draft,
    analysis: &mut Analysis,
    checker: &mut Checker,
    propagator: &Propagator,
    order: &mut Order,
    conflict: u32,
)
    requires checker { checker.old ≡ propagator.now.stored.variables }
    requires undecided { propagator.now.path.starts ≡ [] }
    requires sound { IsSound (all_lits propagator.now.stored) propagator.now.path }
    requires conflict { IsConflict (all_lits propagator.now.stored) propagator.now.path.falses conflict }
    requires room { HasRoom propagator.now.stored.variables
        (vec_capacity draft.old.lits) (vec_capacity draft.old.hints) }
    ensures checker { checker.new ≡ checker.old }
    ensures room { KeepsRoom draft.old draft.new }
    ensures last { IsLast propagator.now.stored.variables (all_lits propagator.now.stored)
        (line_of (count_of propagator.now.stored + 1) draft.new.lits.items draft.new.hints.items) }
{
    analysis.analyze(propagator, order, draft, conflict);
    if is_last(checker, propagator, draft) {
        return;
    }
    take_whole(draft, propagator.trail(), 0, conflict);
}
