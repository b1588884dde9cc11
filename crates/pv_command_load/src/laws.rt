//! What files hold, said of all files, and what places in sources are.
ghost use Rattle.std.specs.Prelude.{◌≤◌, ℕ, List, Option, length, take};
ghost use Rattle.pv_edge.specs.Files.{FileMap};
ghost use Rattle.pv_command_load.specs.Positions.{line_behind, column_behind, IsLineAndColumn};
ghost use Rattle.pv_command_load.specs.Subjects.{Given};
ghost use Rattle.pv_command_load.specs.Correct.{FilesDecideOne, BreachesLie};

use pv_case::{bytes_say_one_case, first_breach_is_one};
use pv_laws_readings::laws::{sources_are_judged_in_one_way, texts_are_one_name};
use pv_pattern_read::laws::{first_fault_is_one, texts_are_one_expression, texts_say_one_pattern};
use pv_tree::least_fault_is_one;

/// Files that tell what they hold have one thing at most that a command works on, one refusal at most, and not both.
pub fn files_decide_one()
    ensures { (files : FileMap) (file : List ℕ) → FilesDecideOne files file }
{
    bytes_say_one_case();
    first_breach_is_one();
    sources_are_judged_in_one_way();
    least_fault_is_one();
    texts_are_one_name();
    texts_are_one_expression();
    texts_say_one_pattern();
    first_fault_is_one();
}

/// Each place at which the sources that the files hold break a rule lies in one of these.
pub fn breaches_lie_in_sources()
    ensures { (told : Option FileMap) (file : List ℕ) (given : Given) → BreachesLie told file given }
{}

/// What is printed of a place in a source is the number of one of its lines, and a column of this line.
pub fn places_have_a_line_and_a_column()
    ensures { (bytes : List ℕ) (offset : ℕ) → offset ≤ length bytes → IsLineAndColumn bytes offset
        (line_behind (take offset bytes)) (column_behind (take offset bytes)) }
{}
