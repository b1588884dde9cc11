//! Laws of what files hold of the first form, each the contract of a function that does nothing.
ghost use Rattle.std.specs.Prelude.{◌≡◌, ℕ, List, Option, Some};
ghost use Rattle.pv_edge.specs.Files.{FileMap, Puts};
ghost use Rattle.pv_command_load.specs.Subjects.{SubjectData};
ghost use Rattle.pv_bool_load.specs.Forms.{ReadsFirst};
ghost use Rattle.pv_bool_load.specs.Refusals.{AsksFirst};
ghost use Rattle.pv_bool_load.specs.Correct.{IsOfProgram, FilesDecideOneFirst};

use pv_case::{bytes_say_one_case, first_breach_is_one};
use pv_command_load::{sources_are_judged_in_one_way, texts_are_one_name};
use pv_pattern_read::laws::{first_fault_is_one, texts_are_one_expression, texts_say_one_pattern};
use pv_tree::least_fault_is_one;

/// For what files hold of the form, what is run is the source of the one block alone, and its machine with the pattern does what that of the
/// Boolean program does.
pub fn subjects_are_their_programs()
    ensures { (told : Option FileMap) (file : List ℕ) (s : SubjectData) → ReadsFirst told file s → IsOfProgram s }
{
    texts_are_one_expression();
}

/// Files that tell what they hold have one thing of the form at most that a command works on, or one
/// refusal at most, and not both.
pub fn files_decide_one_first()
    ensures { (files : FileMap) (file : List ℕ) → FilesDecideOneFirst files file }
{
    bytes_say_one_case();
    first_breach_is_one();
    sources_are_judged_in_one_way();
    least_fault_is_one();
    texts_are_one_name();
    texts_are_one_expression();
    texts_say_one_pattern();
    first_fault_is_one();
}

/// What is read hangs on the files that are asked for alone: what others hold the same of these is the same to work on. So a write to a name
/// that isn't asked for leaves it as it was.
pub fn what_is_read_stays()
    ensures alike { (files later : FileMap) (file : List ℕ) (s : SubjectData) → ReadsFirst (Some files) file s
        → ((asked : List ℕ) → AsksFirst (Some files) file asked → later asked ≡ files asked) → ReadsFirst (Some later) file s }
    ensures written { (files later : FileMap) (file name bytes : List ℕ) (s : SubjectData) → ReadsFirst (Some files) file s
        → Puts name bytes files later → (AsksFirst (Some files) file name → ⊥) → ReadsFirst (Some later) file s }
{}
