//! Laws of the promises, each the contract of a function that does nothing.
ghost use Rattle.std.specs.Prelude.{◌≡◌, ◌≢◌, ℕ, List, Option, Some};
ghost use Rattle.pv_edge.specs.Files.{FileMap};
ghost use Rattle.pv_claims.specs.declared.trace.Ending.{Ending};
ghost use Rattle.pv_cert.specs.declared.certificate.Certificate.{Certificate};
ghost use Rattle.pv_command_show.specs.Handed.{SubjectData};
ghost use Rattle.pv_command_check.specs.Handed.{ReadsFirst};
ghost use Rattle.pv_command_check.specs.Refusals.{AsksCheck};
ghost use Rattle.pv_command_check.specs.Checks.{ComesTo};
ghost use Rattle.pv_command_check.specs.Decided.{HasVerdict};
ghost use Rattle.pv_top.specs.declared.outcome.Outcome.{Outcome};
ghost use Rattle.pv_top.specs.Words.{AreOfCheck, IsCheck, IsRecheck};
ghost use Rattle.pv_top.specs.Outcomes.{status_of, text_of};
ghost use Rattle.pv_top.specs.Calls.{Call, Says};
ghost use Rattle.pv_top.specs.Checks.{NamesCertificate};
ghost use Rattle.pv_top.specs.Promises.{Promises};
ghost use Rattle.pv_top.specs.Kept.{RechecksAs, TellsAgain};

use pv_command_check::laws::files_decide_one_check;
use pv_command_check::what_is_read_stays;
use pv_command_recheck::laws::files_decide_one_recheck;
use pv_command_show::{files_decide_one, files_decide_one_trace, runs_end_in_one_way};
use pv_edge::Sink;

/// By the same words, which are no check's, on the same files one outcome is so: two that say what is so have one status and one text. A file
/// that can't be read and want of memory are left out, for what the files hold doesn't tell which can be read, nor how much memory there is;
/// and a check is, for which of several right verdicts it comes to is the solver's choice.
pub fn files_have_one_outcome()
    ensures { (files : FileMap) (words : List (List ℕ)) (a b : Outcome)
        → (AreOfCheck words → ⊥) → Says (Some files) words a → Says (Some files) words b
        → status_of a ≢ 6 → status_of b ≢ 6 → status_of a ≢ 9 → status_of b ≢ 9
        → (status_of a ≡ status_of b) × (text_of a ≡ text_of b) }
{
    files_decide_one();
    files_decide_one_check();
    files_decide_one_trace();
    runs_end_in_one_way();
    files_decide_one_recheck();
}

/// What a check keeps is valid, whoever has it: where files hold the same thing to work on, and these bytes in a file, a recheck of that file
/// answers with the verdict's status and its report.
pub fn what_is_kept_is_rechecked()
    ensures { (told : Option FileMap) (later : FileMap) (case_file file : List ℕ) (s : SubjectData) (bytes : List ℕ) (c : Certificate)
        (ending : Option Ending) → ComesTo told case_file s bytes c ending → ReadsFirst (Some later) case_file s
        → later file ≡ Some bytes → RechecksAs later case_file file s c ending }
{}

/// Over two calls of `run`, the first a check with a verdict: `recheck` of its certificate answers with its status and its report, running out
/// of memory and faults that are counted aside. `kept`: on files of which one holds what was kept, and which hold what they held of those that
/// the check asked for. `written`: on the files as the check left them, of the file that its case names for the certificate, if it is none of
/// those that the check asked for.
pub fn what_check_wrote_is_rechecked<S: Sink, T: Sink>()
    ensures kept { (first : Call S) (second : Call T) (files later : FileMap) (case_file file : List ℕ)
        → Promises S.call first → IsCheck first.words case_file → first.told ≡ Some files → HasVerdict first.status
        → Promises T.call second → IsRecheck second.words case_file file → second.told ≡ Some later → later file ≡ Some first.kept_after
        → ((asked : List ℕ) → AsksCheck (Some files) case_file asked → later asked ≡ files asked) → TellsAgain first second }
    ensures written { (first : Call S) (second : Call T) (files : FileMap) (case_file file : List ℕ)
        → Promises S.call first → IsCheck first.words case_file → first.told ≡ Some files → HasVerdict first.status
        → Promises T.call second → IsRecheck second.words case_file file → second.told ≡ first.told_after
        → NamesCertificate (Some files) case_file file → (AsksCheck (Some files) case_file file → ⊥) → TellsAgain first second }
{
    what_is_read_stays();
    files_decide_one_check();
}
