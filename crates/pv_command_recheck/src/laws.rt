//! A law of what files hold for a recheck, the contract of a function that does nothing.
ghost use Rattle.std.specs.Prelude.{ℕ, List};
ghost use Rattle.pv_edge.specs.Files.{FileMap};
ghost use Rattle.pv_command_recheck.specs.Decided.{FilesDecideOneRecheck};

use pv_cert::text_determines_certificate;
use pv_command_verdict::files_decide_one_first;
use pv_valid::laws::certificates_have_one_answer;

/// Where the files tell what they hold, that is one thing that a recheck works on with one right certificate at most, or one refusal at most,
/// and not both.
pub fn files_decide_one_recheck()
    ensures { (files : FileMap) (case_file file : List ℕ) → FilesDecideOneRecheck files case_file file }
{
    files_decide_one_first();
    text_determines_certificate();
    certificates_have_one_answer();
}
