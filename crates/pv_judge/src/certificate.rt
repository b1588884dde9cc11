//! The whole of a certificate.
ghost use Rattle.std.specs.Prelude.{◌≡◌, ◌^◌, ◌<◌, true};
ghost use Rattle.pv_claims.specs.TracePart.{trace_form, HasForm};
ghost use Rattle.pv_valid.specs.Claims.{belongs, is_scan};
ghost use Rattle.pv_valid.specs.Walk.{all_proofs_fault};
ghost use Rattle.pv_judge.specs.Answers.{Judges};
ghost use Rattle.pv_judge.specs.Steps.{Finds};

use crate::expected::Expected;
use crate::logs::fault_at;
use crate::proofs::{Task, judge_proofs, judge_spent};
use crate::trace::{behind_trace, judge_trace};
use pv_cert::{Certificate, Proof};
use pv_claims::Claim;
use pv_log::Line;
use pv_valid::{Facts, Fault, Judged, Kind, Verdict};
use std::alloc::Global;

fn is_scan(depth: u32, n: u32) -> bool
    ensures { result ≡ is_scan depth n }
{
    1 <= n && n <= depth
}

/// Whether the claim is one of such a case.
fn belongs(facts: &Facts, claim: Claim) -> bool
    ensures { result ≡ belongs facts.now claim }
{
    match claim {
        Claim::Satisfied(k) => !facts.goal && k <= facts.depth,
        Claim::Unreachable(k) => facts.goal && k <= facts.depth,
        Claim::Violated(n) | Claim::Trapped(n) => !facts.goal && is_scan(facts.depth, n),
        Claim::Reached(n) => facts.goal && is_scan(facts.depth, n),
        Claim::Depth(k) => k == facts.depth,
        Claim::Loop(n) => is_scan(facts.depth, n),
        Claim::Lemmas(b) => b == facts.lemmas,
        Claim::Region(_) => true,
    }
}

/// The proofs of a claim that belongs to the case; the first stands in this line.
fn judge_all<J: Judged>(
    alloc: Global,
    case: &mut J,
    claim: Claim,
    next: &Option<Line>,
    first: u64,
    proofs: &[Proof],
) -> Result<(), Fault>
    requires belongs { belongs (J.case case.old).facts claim ≡ true }
    requires line { first < 2 ^ 60 }
    ensures finds { Finds (all_proofs_fault (J.case case.old) claim next.now first proofs.now) result }
    ensures kept { J.case case.new ≡ J.case case.old }
{
    let limit = case.facts().words;
    match claim {
        Claim::Lemmas(budget) => {
            judge_spent(alloc, case, Task::SpendLemmas(budget), first, proofs)
        }
        Claim::Region(need) => judge_spent(
            alloc,
            case,
            Task::SpendWords(limit, need, next),
            first,
            proofs,
        ),
        other => judge_proofs(alloc, case, Expected::of(other), first, proofs),
    }
}

/// Judges a certificate by a case. One formula is made at a time. It takes memory for that, for a mark a variable, and for the last log
/// of lemmas four bytes a clause.
///
/// A log of 4,294,967,295 lines with a lemma after it is answered as running out of memory.
pub fn judge<J: Judged>(
    alloc: Global,
    case: &mut J,
    certificate: &Certificate,
) -> Result<Verdict, Fault>
    requires form { HasForm (trace_form certificate.now.claim) certificate.now.trace }
    ensures judges { Judges (J.case case.old) certificate.now result }
    ensures kept { J.case case.new ≡ J.case case.old }
{
    let claim = certificate.claim;
    if !belongs(case.facts(), claim) {
        return Err(fault_at(2, Kind::WrongQuery));
    }
    let ending = judge_trace(case, claim, &certificate.trace)?;
    let first = behind_trace(&certificate.trace);
    judge_all(
        alloc,
        case,
        claim,
        &certificate.next,
        first,
        certificate.proofs.as_slice(),
    )?;
    Ok(Verdict { claim, ending })
}
