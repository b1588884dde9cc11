//! Contract tests of pv_kind, pv_lift and pv_evidence: their calls once more, with the clauses of the libraries.
#![tactic(auto)]

ghost use Rattle.std.specs.Prelude.{◌≡◌, ℕ, ◌≤◌, true, IfOk};
ghost use Rattle.pv_machine.specs.Queries.{MeetsBase, MeetsStep};
ghost use Rattle.pv_kind.specs.declared.told.TheConstants.{LAST_QUERY};
ghost use Rattle.pv_kind.specs.Refinements.{IsRefinedInFew};
ghost use Rattle.pv_kind.specs.Decisions.{Decides, IsUnspent, IsProvedBy, IsFailedBy};

mod evidence;
mod lift;

pub use evidence::decide_case;
pub use lift::{formula, make, push, stretch, told, variables};
use pv_kind::{Decision, Limits, Oracle, OracleFault};
use std::alloc::Global;

/// [`pv_kind::decide`].
pub fn decide<O: Oracle>(
    alloc: Global,
    oracle: &mut O,
    limits: &Limits,
) -> Result<Decision, OracleFault>
    requires depth { limits.now.depth ≤ LAST_QUERY }
    requires lemmas { 1 ≤ limits.now.lemmas }
    requires words { limits.now.words ≤ 250000000 }
    ensures decides { IfOk result (λ d. Decides (O.Source.machine (O.source (O.fixed oracle.old))) (O.encoding (O.fixed oracle.old))
        (O.stage oracle.old) (O.stage oracle.new) limits.now d.proofs d.end) }

    // Where no limit is spent, what can be shown up to the depth is shown.
    ensures proves { IfOk result (λ d. (k : ℕ) → IsUnspent d.end → k ≤ limits.now.depth
        → ((j : ℕ) → 1 ≤ j → j ≤ k → MeetsBase (O.Source.machine (O.source (O.fixed oracle.old))) j → ⊥)
        → (MeetsStep (O.Source.machine (O.source (O.fixed oracle.old))) k → ⊥) → IsProvedBy k d.end) }
    ensures finds { IfOk result (λ d. (n : ℕ) → IsUnspent d.end → n ≤ limits.now.depth
        → MeetsBase (O.Source.machine (O.source (O.fixed oracle.old))) n → IsFailedBy n d.end) }

    // Only cells that differ are put back, and so in no more rounds than there are abstracted cells.
    ensures refined { IsRefinedInFew (O.encoding (O.fixed oracle.old)).tells (O.stage oracle.old) (O.stage oracle.new) }

    ensures gates { result ≡ Err OracleFault.Gates → (O.encoding (O.fixed oracle.old)).passes (O.stage oracle.new).chain ≡ true }
    ensures fixed_kept { O.fixed oracle.new ≡ O.fixed oracle.old }
{
    pv_kind::decide(alloc, oracle, limits)
}
