//! Laws of verdicts on what files hold, each the contract of a function that does nothing.
ghost use Rattle.std.specs.Prelude.{ℕ, List, Option};
ghost use Rattle.pv_edge.specs.Files.{FileMap};
ghost use Rattle.pv_claims.specs.declared.trace.Ending.{Ending};
ghost use Rattle.pv_cert.specs.declared.certificate.Certificate.{Certificate};
ghost use Rattle.pv_cert.specs.CertificateText.{IsTextOf};
ghost use Rattle.pv_valid.specs.Validity.{ending_in, IsRight};
ghost use Rattle.pv_bool_load.specs.Handed.{SubjectData, source_in};
ghost use Rattle.pv_bool_load.specs.Forms.{ReadsFirst};
ghost use Rattle.pv_command_verdict.specs.Cases.{case_in};
ghost use Rattle.pv_command_verdict.specs.Sayings.{SaysOfSource};
ghost use Rattle.pv_command_verdict.specs.Verdicts.{IsVerdict, IsValidFor};
ghost use Rattle.pv_command_verdict.specs.Correct.{ScansAreDone, IsByPattern, CountsEdges};

use pv_bool_load::laws::subjects_are_their_programs;
use pv_kind::laws::no_run_fails_early;
use pv_pattern::laws::no_base_is_satisfied;

/// What a certificate says that is right for what the files hold is so of the runs of its source, whoever wrote it.
pub fn right_certificates_say_what_is_so()
    ensures { (told : Option FileMap) (file : List ℕ) (s : SubjectData) (bytes : List ℕ) (c : Certificate)
        → ReadsFirst told file s → IsTextOf bytes c → IsRight (case_in s) c → IsVerdict s bytes c (ending_in (case_in s) c.trace) }
{
    subjects_are_their_programs();
    no_run_fails_early();
    no_base_is_satisfied();
}

/// The text of a verdict's certificate is valid by the same case, with the verdict's claim and ending.
pub fn verdicts_have_valid_certificates()
    ensures { (s : SubjectData) (bytes : List ℕ) (c : Certificate) (told : Option Ending) → IsVerdict s bytes c told
        → IsValidFor s bytes (record { claim = c.claim; ending = told }) }
{}

/// Nothing of the form traps or goes over a loop's bound: each scan of each run is done. So nothing that is said of the source is that a scan does so, and a scan that
/// fails beyond a depth breaks the requirement or reaches the goal.
pub fn scans_are_done()
    ensures scans { (told : Option FileMap) (file : List ℕ) (s : SubjectData) → ReadsFirst told file s → ScansAreDone (source_in s) }
    ensures verdicts { (told : Option FileMap) (file : List ℕ) (s : SubjectData) (c : Certificate) (ending : Option Ending)
        → ReadsFirst told file s → SaysOfSource (source_in s) s.pattern s.given.case.limits c ending c.claim
        → IsByPattern ending c.claim }
{
    subjects_are_their_programs();
}

/// What is counted as edges, the assignments of the Boolean program, is the size of the entered block's automaton.
pub fn edges_are_sizes()
    ensures { (told : Option FileMap) (file : List ℕ) (s : SubjectData) → ReadsFirst told file s → CountsEdges s }
{}
