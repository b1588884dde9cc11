//! What is asked of the lift of what a command works on: to decide it, and to judge a certificate by it.
//!
//! The lift stands on the Boolean program's circuits and replays traces on the sources; both are made here, and nothing above names them.
ghost use Rattle.std.specs.Prelude.{◌≡◌, ℕ, List, Option, Err, IfOk};
ghost use Rattle.pv_edge.specs.Files.{FileMap};
ghost use Rattle.pv_replay.specs.Replays.{cells_of};
ghost use Rattle.pv_bool.specs.Programs.{program_tree};
ghost use Rattle.pv_claims.specs.TracePart.{trace_form, HasForm};
ghost use Rattle.pv_lift.specs.Lifts.{looks_back_of};
ghost use Rattle.pv_lift.specs.Stages.{stage_of};
ghost use Rattle.pv_judge.specs.Answers.{Judges};
ghost use Rattle.pv_bool_load.specs.Handed.{SubjectData};
ghost use Rattle.pv_bool_load.specs.Forms.{ReadsFirst};
ghost use Rattle.pv_bool_load.specs.Made.{IsFirstSubject};
ghost use Rattle.pv_command_verdict.specs.Sizes.{HasTooManyGates};
ghost use Rattle.pv_command_verdict.specs.Cases.{case_in};
ghost use Rattle.pv_command_verdict.specs.Made.{IsWorkedOn, IsEvidenceOf, IsLiftOf};

use crate::limits::limits_of;
use pv_bool_load::FirstSubject;
use pv_bool_load::laws::subjects_are_their_programs;
use pv_bool_steps::ProgramSteps;
use pv_case::Reductions;
use pv_cert::Certificate;
use pv_evidence::{Evidence, decide_case};
use pv_frames::laws::queries_are_formulas;
use pv_judge::judge;
use pv_kind::OracleFault;
use pv_kind::laws::no_run_fails_early;
use pv_lift::{Lift, Reduce, make};
use pv_mean::laws::views_keep_paths_types_and_starts;
use pv_pattern::laws::no_base_is_satisfied;
use pv_program::replay_of;
use pv_solver::{limits_that_suffice, propagation_spends_nothing};
use pv_valid::{Fault, Verdict};
use std::alloc::{AllocError, Global};

/// The reductions that a case names.
fn reduce_of(named: Reductions) -> Reduce
    ensures constants { result.constants ≡ named.constants }
    ensures abstraction { result.abstraction ≡ named.abstraction }
    ensures cone { result.cone ≡ named.cone }
{
    Reduce {
        constants: named.constants,
        abstraction: named.abstraction,
        cone: named.cone,
    }
}

/// The lift of what a command works on: the queries of its Boolean program, whose steps are these, and replays of its source.
fn lift_of<'a, 'p>(
    alloc: Global,
    first: &'a FirstSubject,
    steps: &'a ProgramSteps<'p>,
) -> Result<Lift<'a, ProgramSteps<'p>>, AllocError>
    requires worked_on { IsWorkedOn first.now }
    requires steps { steps.now.program.now ≡ first.now.program }
    ensures { (told : Option FileMap) (file : List ℕ) (s : SubjectData) → ReadsFirst told file s → IsFirstSubject first.now s
        → IfOk result (λ lift. IsLiftOf s (program_tree lift.machine.circuits.now.program.now) lift.facts (cells_of lift.replay)
        (looks_back_of lift.pattern.now) (stage_of lift.chain)) }
{
    subjects_are_their_programs();
    views_keep_paths_types_and_starts();
    let subject = &first.subject;
    let replay = replay_of(alloc, &subject.project, &subject.view, &subject.table)?;
    let reduce = reduce_of(subject.case.reductions);
    let limits = limits_of(&subject.case);
    make(alloc, steps, replay, &subject.pattern, &reduce, &limits)
}

/// Decides what a command works on within its case's limits. `Gates` comes exactly where its circuit has more gates than there may be, running
/// out of memory aside.
pub fn decide(alloc: Global, first: &FirstSubject) -> Result<Evidence, OracleFault>
    requires worked_on { IsWorkedOn first.now }
    ensures found { (told : Option FileMap) (file : List ℕ) (s : SubjectData) → ReadsFirst told file s → IsFirstSubject first.now s
        → IfOk result (λ e. IsEvidenceOf s e.certificate e.ending) }
    ensures gates { (told : Option FileMap) (file : List ℕ) (s : SubjectData) → ReadsFirst told file s → IsFirstSubject first.now s
        → result ≡ Err OracleFault.Gates → HasTooManyGates s }
{
    subjects_are_their_programs();
    no_run_fails_early();
    no_base_is_satisfied();
    queries_are_formulas();
    limits_that_suffice();
    propagation_spends_nothing();
    let steps = ProgramSteps::new(alloc, &first.program)?;
    let mut lift = lift_of(alloc, first, &steps)?;
    let decided = decide_case(alloc, &mut lift, &limits_of(&first.subject.case));
    drop(lift);
    decided
}

/// Judges a certificate that was read by what a command works on.
pub fn judge_certificate(
    alloc: Global,
    first: &FirstSubject,
    certificate: &Certificate,
) -> Result<Verdict, Fault>
    requires worked_on { IsWorkedOn first.now }
    requires form { HasForm (trace_form certificate.now.claim) certificate.now.trace }
    ensures { (told : Option FileMap) (file : List ℕ) (s : SubjectData) → ReadsFirst told file s → IsFirstSubject first.now s
        → Judges (case_in s) certificate.now result }
{
    let steps = ProgramSteps::new(alloc, &first.program)?;
    let mut lift = lift_of(alloc, first, &steps)?;
    let judged = judge(alloc, &mut lift, certificate);
    drop(lift);
    judged
}
