//! The check of a certificate.
ghost use Rattle.std.specs.Prelude.{◌≡◌, ◌↔◌, ◌+◌, ◌<◌, ◌≤◌, ◌^◌, length, IfOk, OnOk, IfErr};
ghost use Rattle.std.specs.Prelude.{IsTrue, Result, Err};
ghost use Rattle.pv_gate.specs.Node.{gate_count};
ghost use Rattle.pv_bool.specs.Programs.{program_tree};
ghost use Rattle.pv_circuit.specs.Made.{circuit_seen};
ghost use Rattle.pv_cert.specs.declared.proof.Query.{Query};
ghost use Rattle.pv_recheck.specs.Form.{IsUnbuilt};
ghost use Rattle.pv_step.specs.Circuits.{circuit_of};
ghost use Rattle.pv_recheck.specs.Validity.{formula_over, step_formula, IsValid};
ghost use Rattle.pv_recheck.specs.Answers.{Answers, IsUnlessNoMemory};
ghost use Rattle.pv_recheck.specs.Judging.{HasFewGates, HasNoFormula, JudgesLog, JudgesProofs};

use crate::fault::{Kind, RecheckFault};
use crate::form::is_unbuilt;
use crate::stop::{LogStop, ProofStop, answer_of};
use pv_bool::Program;
use pv_cert::{Proof, Query, read};
use pv_circuit::{Start, StepCircuit};
use pv_claims::CertFault;
use pv_cnf::{ClauseView, Formula};
use pv_frames::query::{MAX_QUERY_NODES, push_frames, variables};
use pv_gate::GateFault;
use pv_log::{Checker, Log, Verdict};
use pv_step::{circuit, starts};
use std::alloc::Global;

/// So many gates a step circuit may have.
pub const MAX_STEP_GATES: u32 = 1_000_000;

/// So many bits a program may have: with them a circuit has no more nodes than a query's may.
pub const MAX_STEP_BITS: u32 = 28_999_999;

/// Whether the bytes are a valid certificate of 'satisfied' with k = 0 for a program. The work is
/// linear in the program, the certificate and the clauses that the log's hints name.
///
/// The bytes are judged in this order: their form, the grammar of the whole, the first query, the
/// number of gates of the step circuit, the log, and what stands in place of the end. So the fault
/// is the first in the file, but for the grammar, which comes before all contents.
pub fn check_certificate(alloc: Global, program: &Program, bytes: &[u8]) -> Result<(), RecheckFault>
    requires { length program.now.bits.items ≤ MAX_STEP_BITS }

    // What is accepted is valid, and each refusal is as its case says.
    ensures valid { OnOk result (IsValid (program_tree program.now) bytes.now) }
    ensures answer { Answers MAX_STEP_GATES (program_tree program.now) bytes.now result }
    // The case that holds is the answer.
    ensures only { (other : Result (Unit {0}) RecheckFault)
        → (other ≡ Err RecheckFault.NoMemory → ⊥)
        → Answers MAX_STEP_GATES (program_tree program.now) bytes.now other
        → IsUnlessNoMemory result other }
{
    check(alloc, program, MAX_STEP_GATES, bytes)
}

/// The check under this limit on gates.
pub(crate) fn check(
    alloc: Global,
    program: &Program,
    limit: u32,
    bytes: &[u8],
) -> Result<(), RecheckFault>
    requires bits { length program.now.bits.items ≤ MAX_STEP_BITS }
    requires limit { limit ≤ MAX_STEP_GATES }
    ensures { Answers limit (program_tree program.now) bytes.now result }
{
    if is_unbuilt(bytes) {
        return Err(RecheckFault::Unbuilt);
    }
    match read(alloc, bytes) {
        Ok(certificate) => answer_of(check_proofs(
            alloc,
            program,
            limit,
            certificate.proofs.as_slice(),
        )),
        Err(CertFault::NotACertificate { line }) => Err(RecheckFault::Fault {
            line,
            kind: Kind::NotACertificate,
        }),
        Err(CertFault::NoMemory) => Err(RecheckFault::NoMemory),
    }
}

/// The one proof that belongs to the verdict, and no other.
fn check_proofs(
    alloc: Global,
    program: &Program,
    limit: u32,
    proofs: &[Proof],
) -> Result<(), ProofStop>
    requires bits { length program.now.bits.items ≤ MAX_STEP_BITS }
    requires limit { limit ≤ MAX_STEP_GATES }
    ensures { JudgesProofs limit (program_tree program.now) proofs.now result }
{
    let Some((first, more)) = proofs.split_first() else {
        return Err(ProofStop::WrongQuery(3));
    };
    if !is_step_zero(first.query) {
        return Err(ProofStop::WrongQuery(3));
    }
    if let Err(stop) = check_log(alloc, program, limit, &first.log) {
        return Err(ProofStop::Log(stop));
    }
    if !more.is_empty() {
        return Err(ProofStop::WrongQuery(first.log.as_slice().len() as u64 + 6));
    }
    Ok(())
}

fn is_step_zero(query: Query) -> bool
    ensures { IsTrue result ↔ (query ≡ Query.Step 0) }
{
    match query {
        Query::Base(_) => false,
        Query::Step(k) => k == 0,
    }
}

/// The log, against the formula of step(0).
fn check_log(alloc: Global, program: &Program, limit: u32, log: &Log) -> Result<(), LogStop>
    requires bits { length program.now.bits.items ≤ MAX_STEP_BITS }
    requires limit { limit ≤ MAX_STEP_GATES }
    ensures { JudgesLog limit (program_tree program.now) log.now result }
{
    let formula = match step_formula(alloc, program, limit) {
        Ok(formula) => formula,
        Err(GateFault::Limit) => return Err(LogStop::TooManyGates),
        Err(GateFault::NoMemory) => return Err(LogStop::NoMemory),
    };
    let mut checker = Checker::make(alloc, formula.variables())?;
    match checker.check(&formula, log) {
        Verdict::Accepted => Ok(()),
        Verdict::NoEmpty => Err(LogStop::NoEmpty),
        Verdict::Refused { line, kind } => Err(LogStop::Line(line as u64 + 5, kind)),
    }
}

/// The formula of step(0), made from the program.
fn step_formula(alloc: Global, program: &Program, limit: u32) -> Result<Formula, GateFault>
    requires bits { length program.now.bits.items ≤ MAX_STEP_BITS }
    requires limit { limit ≤ MAX_STEP_GATES }
    ensures formula { IfOk result (λ formula. formula ≡ step_formula (program_tree program.now)) }
    ensures small { IfOk result (λ formula. formula.variables < 2 ^ 31) }
    ensures few { OnOk result (HasFewGates limit (program_tree program.now)) }
    ensures none { IfErr result (λ fault. HasNoFormula limit (program_tree program.now) fault) }
{
    match circuit(alloc, program, limit) {
        Ok(step) => formula_of(alloc, program, &step),
        Err(fault) => Err(fault),
    }
}

/// The formula of step(0), over the program's circuit.
fn formula_of(alloc: Global, program: &Program, step: &StepCircuit) -> Result<Formula, GateFault>
    requires circuit { circuit_seen step.now ≡ circuit_of (program_tree program.now) }
    requires nodes { length step.now.gates.nodes ≤ MAX_QUERY_NODES }
    requires gates { gate_count step.now.gates.nodes ≤ MAX_STEP_GATES }
    ensures formula { IfOk result (λ formula. formula ≡ step_formula (program_tree program.now)) }
    ensures small { IfOk result (λ formula. formula.variables < 2 ^ 31) }
    ensures err { IfErr result (λ fault. fault ≡ GateFault.NoMemory) }
{
    let starts = starts(alloc, program)?;
    formula_from(alloc, step, starts.as_slice())
}

/// The formula of step(0) of a circuit whose state begins so.
fn formula_from(alloc: Global, step: &StepCircuit, start: &[Start]) -> Result<Formula, GateFault>
    requires start { length start.now ≡ length step.now.state_in.items }
    requires nodes { length step.now.gates.nodes ≤ MAX_QUERY_NODES }
    requires gates { gate_count step.now.gates.nodes ≤ MAX_STEP_GATES }
    ensures formula { IfOk result
        (λ formula. formula ≡ formula_over (circuit_seen step.now) start.now) }
    ensures small { IfOk result (λ formula. formula.variables < 2 ^ 31) }
    ensures err { IfErr result (λ fault. fault ≡ GateFault.NoMemory) }
{
    let query = Query::Step(0);
    let mut formula = Formula::make(alloc, variables(step, start, query))?;
    match push_frames(alloc, step, start, query, &mut formula) {
        Ok(()) => Ok(formula),
        Err(_) => Err(GateFault::NoMemory),
    }
}
