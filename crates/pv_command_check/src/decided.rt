//! The stage of a check that decides.
ghost use Rattle.std.specs.Prelude.{◌≡◌, ◌≢◌, ℕ, List, Option, IfOk, IfErr};
ghost use Rattle.pv_edge.specs.Files.{FileMap};
ghost use Rattle.pv_command_verdict.specs.Handed.{SubjectData, ReadsFirst, IsFirstSubject};
ghost use Rattle.pv_command_verdict.specs.Made.{IsWorkedOn};
ghost use Rattle.pv_command_check.specs.Refusals.{chain_text};
ghost use Rattle.pv_command_check.specs.Checks.{StopsCheck, check_stop_status};
ghost use Rattle.pv_command_check.specs.Made.{IsStopOf, IsDecided};

use crate::stop::CheckStop;
use pv_command_verdict::{FirstSubject, decide, has_too_many_edges};
use pv_edge::Text;
use pv_evidence::Evidence;
use pv_kind::OracleFault;
use std::alloc::{AllocError, Global};

/// The line of the chain without reductions.
fn chain_line(alloc: Global) -> Result<Text, AllocError>
    ensures { IfOk result (λ text. text ≡ chain_text) }
{
    let line = String::from_str(alloc, "chain\n")?;
    Ok(Text::from(line.into_bytes()))
}

/// Why a check stops where the oracle was stopped so.
fn stop_of(alloc: Global, fault: OracleFault) -> CheckStop
    ensures { IsStopOf fault result }
{
    match fault {
        OracleFault::NoMemory => CheckStop::NoMemory,
        OracleFault::Gates => match chain_line(alloc) {
            Ok(chain) => CheckStop::TooManyGates { chain },
            Err(_) => CheckStop::NoMemory,
        },
    }
}

/// What is decided of what a check works on: the count of its edges comes first, then that of its circuit's gates.
pub(crate) fn decided(alloc: Global, first: &FirstSubject) -> Result<Evidence, CheckStop>
    requires worked_on { IsWorkedOn first.now }
    ensures found { (told : Option FileMap) (file : List ℕ) (s : SubjectData) → ReadsFirst told file s → IsFirstSubject first.now s
        → IfOk result (λ e. IsDecided s e.certificate e.ending) }
    ensures stopped { (told : Option FileMap) (file : List ℕ) (s : SubjectData) → ReadsFirst told file s → IsFirstSubject first.now s
        → IfErr result (StopsCheck told file) }
    ensures of_status { IfErr result (λ stop. (check_stop_status stop ≢ 6) × (check_stop_status stop ≢ 7)) }
{
    if has_too_many_edges(&first.program) {
        return Err(CheckStop::TooManyEdges);
    }
    match decide(alloc, first) {
        Ok(evidence) => Ok(evidence),
        Err(fault) => Err(stop_of(alloc, fault)),
    }
}
