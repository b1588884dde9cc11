//! Contract tests of the patterns of `pv_bool_form`, of `pv_bool_case`, and of `pv_bool_load`.
//!
//! Each of these public calls stands here once more, with the library's clauses, by the call itself. An edit of `must-fail` gives a wrong
//! answer in its place.
#![tactic(auto)]

ghost use Rattle.pv_bool.specs.Programs.{program_tree};
ghost use Rattle.pv_bool_case.specs.Forms.{IsFirstCase, IsFirstAlone};
ghost use Rattle.pv_bool_case.specs.Programs.{AreAPattern, IsMadeOf};
ghost use Rattle.pv_bool_form.specs.FirstForm.{IsFirstBlock, IsFirstPattern, IsFirstOperand};
ghost use Rattle.pv_bool_form.specs.Programs.{first_source, pattern_program};
ghost use Rattle.pv_bool_form.specs.Requirements.{pattern_tree};
ghost use Rattle.pv_bool_load.specs.Forms.{ReadsFirst};
ghost use Rattle.pv_bool_load.specs.Made.{IsFirstSubject};
ghost use Rattle.pv_bool_load.specs.Stops.{first_stop_status, first_stop_unread, StopsFirst};
ghost use Rattle.pv_case.specs.Cases.{SourceData, data_of};
ghost use Rattle.pv_command_load.specs.Held.{Counts, IsUnread};
ghost use Rattle.pv_command_load.specs.Subjects.{SubjectData};
ghost use Rattle.pv_lex.specs.declared.lex.TheConstants.{MAX_SOURCE};
ghost use Rattle.pv_mean.specs.ProjectSizes.{project_tree};
ghost use Rattle.pv_pattern.specs.Patterns.{Pattern};
ghost use Rattle.pv_pattern_read.specs.Answers.{AnswersText};
ghost use Rattle.pv_pattern_read.specs.Kinds.{IsReadPattern};
ghost use Rattle.pv_tree.specs.Tree.{BlockTree, OperandTree};
ghost use Rattle.pv_tree.specs.View.{block_tree};
ghost use Rattle.std.specs.Prelude.{All, IfErr, IfNone, IfOk, IfSome, IsSome, IsTrue, List, MatchResult, Some, [], length, map, slice_get, string_bytes, ℕ, ◌∷◌, ◌↔◌, ◌≡◌, ◌<◌, ◌≤◌};

use pv_bool::Program;
use pv_bool_form::Requirement;
use pv_bool_load::{FirstStop, FirstSubject};
use pv_case::{Case, PatternKind};
use pv_edge::Files;
use pv_pattern_read::TextFault;
use pv_tree::{Block, Expr, Project};
use std::alloc::{AllocError, Global};

/// [`pv_bool_form::first_pattern`].
pub fn first_pattern(
    alloc: Global,
    block: &Block,
    required: Requirement<'_>,
) -> Result<Option<Program>, AllocError>
    ensures is_first { IfOk result (λ made. IsSome made ↔ (IsFirstBlock (block_tree block.now)
        × IsFirstPattern (block_tree block.now).vars (pattern_tree required.entry))) }
    ensures program { IfOk result (λ made. IfSome made (λ program.
        (patterns : List OperandTree) (bound : ℕ)
        → All (IsFirstOperand (block_tree block.now).vars) patterns
        → program_tree program ≡ pattern_program
        (first_source (block_tree block.now) patterns bound) (pattern_tree required.entry))) }
{
    pv_bool_form::first_pattern(alloc, block, required)
}

/// [`pv_bool_case::is_first_case`].
pub fn is_first_case(case: &Case) -> bool
    ensures { IsTrue result ↔ IsFirstCase (data_of case.now) }
{
    pv_bool_case::is_first_case(case)
}

/// [`pv_bool_case::source_file`].
pub fn source_file(case: &Case) -> Option<&String>
    ensures some { IfSome result (λ file. (source : SourceData) × ((data_of case.now).sources ≡ source ∷ [])
        × (string_bytes file.now ≡ source.file)) }
    ensures none { IfNone result ((source : SourceData) → (data_of case.now).sources ≡ source ∷ [] → ⊥) }
{
    pv_bool_case::source_file(case)
}

/// [`pv_bool_case::only_block`].
pub fn only_block(project: &Project) -> Option<&Block>
    ensures some { IfSome result (λ block. map block_tree project.now.blocks.list.items ≡ block_tree block.now ∷ []) }
    ensures none { IfNone result ((block : BlockTree) → map block_tree project.now.blocks.list.items ≡ block ∷ [] → ⊥) }
{
    pv_bool_case::only_block(project)
}

/// [`pv_bool_case::is_first_project`].
pub fn is_first_project(alloc: Global, project: &Project) -> Result<bool, AllocError>
    ensures { IfOk result (λ is. IsTrue is ↔ IsFirstAlone (map block_tree project.now.blocks.list.items)) }
{
    pv_bool_case::is_first_project(alloc, project)
}

/// [`pv_bool_case::said_at`].
pub fn said_at(alloc: Global, project: &Project, entry: u32, text: &str) -> Result<Expr, TextFault>
    requires short { length text.now ≤ MAX_SOURCE }
    requires there { entry < length project.now.blocks.list.items }
    ensures { (block : BlockTree) → slice_get (map block_tree project.now.blocks.list.items) entry ≡ Some block
        → AnswersText (record { project = project_tree project.now; block = block }) text.now result }
{
    pv_bool_case::said_at(alloc, project, entry, text)
}

/// [`pv_bool_case::program_by`].
pub fn program_by(
    alloc: Global,
    project: &Project,
    entry: u32,
    block: &Block,
    kind: PatternKind,
    texts: &[String],
) -> Result<Option<Program>, AllocError>
    requires short { All (λ t. length (string_bytes t) ≤ MAX_SOURCE) texts.now }
    requires read { AreAPattern (project_tree project.now) entry kind (map string_bytes texts.now) }
    ensures { (entered : BlockTree) (p : Pattern)
        → slice_get (map block_tree project.now.blocks.list.items) entry ≡ Some entered
        → IsReadPattern (record { project = project_tree project.now; block = entered }) kind
        (map string_bytes texts.now) p
        → IfOk result (IsMadeOf (block_tree block.now) p) }
{
    pv_bool_case::program_by(alloc, project, entry, block, kind, texts)
}

/// [`pv_bool_load::first_subject_in`].
pub fn first_subject_in<F: Files>(
    alloc: Global,
    files: &mut F,
    case_file: &str,
) -> Result<FirstSubject, FirstStop>
    ensures files { F.told files.new ≡ F.told files.old }
    ensures found { IfOk result (λ made. (s : SubjectData) × ReadsFirst (F.told files.old) case_file.now s × IsFirstSubject made s) }
    ensures stopped { IfErr result (StopsFirst (F.told files.old) case_file.now) }
    ensures counted { MatchResult result
        (λ made. F.read_faults files.new ≡ F.read_faults files.old)
        (λ stop. Counts (first_stop_status stop) (F.read_faults files.old) (F.read_faults files.new)) }
    ensures named { IfErr result (λ stop. IsUnread (first_stop_unread stop) (F.unread files.new)) }
    ensures writes { F.write_faults files.new ≡ F.write_faults files.old }
{
    pv_bool_load::first_subject_in(alloc, files, case_file)
}
