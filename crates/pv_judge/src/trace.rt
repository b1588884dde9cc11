//! The trace of a certificate, replayed by the case.
ghost use Rattle.std.specs.Prelude.{◌≡◌, ℕ, ◌+◌, ◌^◌, ◌<◌, ◌≤◌, Bool, length, Some, None};
ghost use Rattle.pv_claims.specs.declared.trace.Ending.{Ending};
ghost use Rattle.pv_claims.specs.TracePart.{trace_lines};
ghost use Rattle.pv_valid.specs.Claims.{ends_as};
ghost use Rattle.pv_kind.specs.declared.told.TheConstants.{LAST_QUERY};
ghost use Rattle.pv_valid.specs.Starts.{IsStart, state_from};
ghost use Rattle.pv_valid.specs.Walk.{may_follow};
ghost use Rattle.pv_judge.specs.Steps.{FindsIn, FindsScans, FindsFrom, FindsEnd, HasFewScans, scans_found, in_range, begin_fault};

use crate::logs::fault_at;
use crate::values::are_between;
use pv_claims::{CellValues, Claim, Ending, Trace};
use pv_stretch::{Stretch, StretchEnd, StretchStart};
use pv_valid::{Facts, Fault, Judged, Kind};

/// Whether the last scan that shows the claim may end so.
fn ends_as(claim: Claim, ending: Ending) -> bool
    ensures { result ≡ ends_as claim ending }
{
    match claim {
        Claim::Violated(_) | Claim::Reached(_) => matches!(ending, Ending::Pattern),
        Claim::Trapped(_) => matches!(ending, Ending::Trap(..)),
        Claim::Loop(_) => matches!(ending, Ending::Over(_)),
        Claim::Satisfied(_)
        | Claim::Unreachable(_)
        | Claim::Depth(_)
        | Claim::Lemmas(_)
        | Claim::Region(_) => true,
    }
}

/// Whether the case has such a mark.
fn may_follow(facts: &Facts, prev: Option<bool>) -> bool
    ensures { result ≡ may_follow facts.now prev }
{
    prev.is_none() || facts.looks_back
}

/// How many scans have their values in range, before the first that hasn't.
fn in_range(ranges: &[(i128, i128)], inputs: &[CellValues]) -> usize
    ensures counted { result ≡ in_range ranges.now inputs.now }
    ensures most { result ≤ length inputs.now }
{
    for (n, input) in inputs.iter().enumerate() {
        if !are_between(ranges, input.as_slice()) {
            return n;
        }
    }
    inputs.len()
}

/// What scans show of which so many are good, out of so many, where the next one fails and ends so; the first stands in this line.
fn failed(
    claim: Claim,
    first: u64,
    count: usize,
    good: u64,
    ending: Ending,
) -> Result<Ending, Fault>
    requires line { first ≤ 5 }
    requires few { count ≤ LAST_QUERY + 1 }
    requires good { good ≤ count }
    ensures { (ranged : ℕ) → FindsEnd (scans_found (ends_as claim) first count ranged good (Some (StretchEnd.Fails ending)))
        (Some (StretchEnd.Fails ending)) result }
{
    if good + 1 == count as u64 && ends_as(claim, ending) {
        Ok(ending)
    } else {
        Err(fault_at(first + good, Kind::TraceDiffers))
    }
}

/// What scans show of which so many are good, out of so many, where the next one ends the stretch so; the first stands in this line.
fn ended(
    claim: Claim,
    first: u64,
    count: usize,
    good: u64,
    end: StretchEnd,
) -> Result<Ending, Fault>
    requires line { first ≤ 5 }
    requires few { count ≤ LAST_QUERY + 1 }
    requires good { good ≤ count }
    ensures { (ranged : ℕ) → FindsEnd (scans_found (ends_as claim) first count ranged good (Some end)) (Some end) result }
{
    match end {
        StretchEnd::Fails(ending) => failed(claim, first, count, good, ending),
        StretchEnd::Stopped(..) => Err(fault_at(first + good, Kind::TraceDiffers)),
    }
}

/// What is wrong where all scans are good of which so many have values in range, out of so many; the first stands in this line.
fn unfailed(first: u64, count: usize, ranged: usize) -> Fault
    requires line { first ≤ 5 }
    requires few { count ≤ LAST_QUERY + 1 }
    ensures { (ends : Ending → Bool) (good : ℕ) → scans_found ends first count ranged good None ≡ Some result }
{
    if ranged < count {
        fault_at(first + ranged as u64, Kind::WrongQuery)
    } else {
        fault_at(first + count.saturating_sub(1) as u64, Kind::TraceDiffers)
    }
}

/// What scans show of which so many have values in range, out of so many; the first stands in this line.
fn shown(
    claim: Claim,
    first: u64,
    count: usize,
    ranged: usize,
    stretch: Stretch,
) -> Result<Ending, Fault>
    requires line { first ≤ 5 }
    requires few { count ≤ LAST_QUERY + 1 }
    requires good { stretch.good ≤ count }
    ensures { FindsEnd (scans_found (ends_as claim) first count ranged stretch.good stretch.ending) stretch.ending result }
{
    match stretch.ending {
        Some(end) => ended(claim, first, count, stretch.good, end),
        None => Err(unfailed(first, count, ranged)),
    }
}

/// Replays scans from where they begin; the first stands in this line.
fn replay<J: Judged>(
    case: &mut J,
    claim: Claim,
    start: StretchStart,
    first: u64,
    inputs: &[CellValues],
) -> Result<Ending, Fault>
    requires start { IsStart (J.case case.old) start }
    requires line { first ≤ 5 }
    requires few { length inputs.now ≤ LAST_QUERY + 1 }
    ensures finds { FindsFrom (J.case case.old) claim first (state_from (J.case case.old) start.entry) inputs.now result }
    ensures kept { J.case case.new ≡ J.case case.old }
{
    let ranged = in_range(case.facts().input.as_slice(), inputs);
    let stretch = case.stretch(start, &inputs[..ranged]);
    shown(claim, first, inputs.len(), ranged, stretch)
}

/// Whether the params, or the image and the mark, are those of a case; the first line that isn't, from 1.
fn begin_fault(facts: &Facts, trace: &Trace) -> Option<u64>
    ensures { result ≡ begin_fault facts.now trace.now.image trace.now }
{
    match &trace.image {
        None => {
            if are_between(facts.params.as_slice(), trace.params.as_slice()) {
                None
            } else {
                Some(3)
            }
        }
        Some(image) => {
            if !are_between(facts.image.as_slice(), image.as_slice()) {
                Some(3)
            } else if !may_follow(facts, trace.prev) {
                Some(4)
            } else {
                None
            }
        }
    }
}

/// Replays a trace, whose first line is line 3.
fn judge_scans<J: Judged>(case: &mut J, claim: Claim, trace: &Trace) -> Result<Ending, Fault>
    requires few { length trace.now.inputs ≤ LAST_QUERY + 1 }
    ensures finds { FindsScans (J.case case.old) claim trace.now result }
    ensures kept { J.case case.new ≡ J.case case.old }
{
    if let Some(line) = begin_fault(case.facts(), trace) {
        return Err(fault_at(line, Kind::WrongQuery));
    }
    let inputs = trace.inputs.as_slice();
    match &trace.image {
        None => replay(
            case,
            claim,
            StretchStart::Params(trace.params.as_slice()),
            4,
            inputs,
        ),
        Some(image) => replay(
            case,
            claim,
            StretchStart::Image(image.as_slice(), trace.prev),
            5,
            inputs,
        ),
    }
}

/// Replays the trace, if there is one, and answers how its last scan ends.
pub(crate) fn judge_trace<J: Judged>(
    case: &mut J,
    claim: Claim,
    trace: &Option<Trace>,
) -> Result<Option<Ending>, Fault>
    requires few { HasFewScans trace.now }
    ensures finds { FindsIn (J.case case.old) claim trace.now result }
    ensures kept { J.case case.new ≡ J.case case.old }
{
    match trace {
        Some(trace) => Ok(Some(judge_scans(case, claim, trace)?)),
        None => Ok(None),
    }
}

/// The line after the trace part.
pub(crate) fn behind_trace(trace: &Option<Trace>) -> u64
    requires few { HasFewScans trace.now }
    ensures line { result ≡ 3 + length (trace_lines trace.now) }
    ensures bounded { result < 2 ^ 60 }
{
    match trace {
        None => 3,
        Some(trace) => {
            let begin = if trace.image.is_some() { 5 } else { 4 };
            begin + trace.inputs.as_slice().len() as u64
        }
    }
}
