//! A law of what files hold for a check, the contract of a function that does nothing.
ghost use Rattle.std.specs.Prelude.{ℕ, List};
ghost use Rattle.pv_edge.specs.Files.{FileMap};
ghost use Rattle.pv_command_check.specs.Decided.{FilesDecideOneCheck};

use pv_command_verdict::files_decide_one_first;

/// Where the files tell what they hold, that is one thing that a check works on at most, or one refusal at most, and not both.
pub fn files_decide_one_check()
    ensures { (files : FileMap) (file : List ℕ) → FilesDecideOneCheck files file }
{
    files_decide_one_first();
}
