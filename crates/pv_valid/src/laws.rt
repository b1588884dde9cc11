//! Laws of certificates over any case, each the contract of a function that does nothing.
ghost use Rattle.std.specs.Prelude.{◌≡◌, ◌↔◌, ◌⊎◌, ℕ, List, None, Result, Err};
ghost use Rattle.pv_cert.specs.declared.certificate.Certificate.{Certificate};
ghost use Rattle.pv_cert.specs.declared.proof.Proof.{Proof};
ghost use Rattle.pv_cert.specs.CertificateText.{IsTextOf};
ghost use Rattle.pv_kind.specs.declared.decision.Limits.{Limits};
ghost use Rattle.pv_kind.specs.declared.decision.End.{End};
ghost use Rattle.pv_kind.specs.Refinements.{Stage};
ghost use Rattle.pv_kind.specs.Decisions.{Decides};
ghost use Rattle.pv_valid.specs.declared.fault.Fault.{Fault};
ghost use Rattle.pv_valid.specs.declared.fault.Fault.TheVariants.{NoMemory};
ghost use Rattle.pv_valid.specs.declared.fault.Kind.{Kind};
ghost use Rattle.pv_valid.specs.declared.fault.Verdict.{Verdict};
ghost use Rattle.pv_valid.specs.Cases.{Case, IsSound};
ghost use Rattle.pv_valid.specs.Validity.{IsRight, IsValid, verdict_of};
ghost use Rattle.pv_valid.specs.Walk.{certificate_fault};
ghost use Rattle.pv_valid.specs.Faults.{IsFirstFault, IsFirstPast, Answers};
ghost use Rattle.pv_valid.specs.Saying.{Says};
ghost use Rattle.pv_valid.specs.Deciding.{IsOracleOf, certificate_of};

use pv_kind::Oracle;

/// A certificate is right exactly where nothing is wrong first with it.
pub fn right_contents_have_no_fault()
    ensures { (case : Case) (c : Certificate) → (certificate_fault case c ≡ None) ↔ IsRight case c }
{}

/// Bytes are those of a valid certificate, have a first fault, or come first to a circuit past the limit on gates; and no two of these,
/// with one verdict, or one line and kind.
pub fn certificates_have_one_answer()
    ensures one { (case : Case) (bytes : List ℕ) (answer other : Result Verdict Fault)
        → Answers case bytes answer → Answers case bytes other
        → (answer ≡ Err NoMemory) ⊎ ((other ≡ Err NoMemory) ⊎ (answer ≡ other)) }
    ensures some { (case : Case) (bytes : List ℕ) (c : Certificate) → IsTextOf bytes c
        → (IsValid case bytes (verdict_of case c)) ⊎ (IsFirstPast case bytes
        ⊎ ((at : ℕ) × (kind : Kind) × IsFirstFault case bytes at kind)) }
{}

/// What a valid certificate says is so, of the machine alone, whoever wrote it.
pub fn valid_certificates_say_what_is_so()
    ensures { (case : Case) (bytes : List ℕ) (verdict : Verdict) → IsSound case
        → (valid : IsValid case bytes verdict) → Says case valid.certificate verdict.claim }
{}

/// The certificate that is made of what `decide` ends with, over an oracle that has this case's clauses and replays, is valid.
pub fn decisions_make_valid_certificates<O: Oracle>()
    ensures { (case : Case) (fixed : O.Fixed) (first last : Stage) (limits : Limits) (proofs : List Proof) (end : End) (bytes : List ℕ)
        → IsSound case → IsOracleOf case (O.encoding fixed) first limits
        → Decides case.machine (O.encoding fixed) first last limits proofs end
        → IsTextOf bytes (certificate_of case proofs end)
        → IsValid case bytes (verdict_of case (certificate_of case proofs end)) }
{}
