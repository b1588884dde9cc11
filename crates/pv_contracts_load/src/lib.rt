//! Contract tests of `pv_command_load`: what a command reads before its second file, stage by stage.
//!
//! Each public call whose clauses are no equation of what it answers stands here once more, with the library's clauses, by the call itself.
//! An edit of `must-fail` gives a wrong answer in its place.
#![tactic(auto)]

ghost use Rattle.pv_case.specs.Cases.{data_of};
ghost use Rattle.pv_cells.specs.Named.{wide_bytes};
ghost use Rattle.pv_command_load.specs.Gathered.{HasSources};
ghost use Rattle.pv_command_load.specs.Held.{Counts, Holds, IsUnread};
ghost use Rattle.pv_command_load.specs.Made.{AreGiven, IsCase, IsFit, IsProjectOf, IsSubject, IsTableOf, view_tree};
ghost use Rattle.pv_command_load.specs.Passing.{source_named};
ghost use Rattle.pv_command_load.specs.ReadTexts.{AreRead};
ghost use Rattle.pv_command_load.specs.Reads.{HoldsCase, Reads};
ghost use Rattle.pv_command_load.specs.Sources.{ReadsAs};
ghost use Rattle.pv_command_load.specs.Stops.{StopsAtSource, StopsCase, StopsFit, StopsProject, StopsRead, StopsSource, StopsSubject, StopsTable, case_status, case_unread, read_status, read_unread, source_status, source_unread, subject_status, subject_unread, text_tree};
ghost use Rattle.pv_command_load.specs.Subjects.{Entered, Given, SubjectData};
ghost use Rattle.pv_mean.specs.Cells.{with_view};
ghost use Rattle.pv_mean.specs.ProjectSizes.{project_tree};
ghost use Rattle.pv_pattern.specs.Patterns.{Pattern as Said};
ghost use Rattle.pv_pattern_read.specs.Kinds.{count_of};
ghost use Rattle.pv_pattern_read.specs.Readable.{HasSource};
ghost use Rattle.pv_tree.specs.View.{block_trees};
ghost use Rattle.std.specs.Prelude.{All, IfErr, IfOk, MatchResult, length, map, string_bytes, ◌≡◌, ◌^◌, ◌<◌, ◌≤◌};

use pv_case::{Case, MAX_SOURCES, Symbol};
use pv_cells::Table;
use pv_command_load::{
    CaseStop, FitStop, ProjectStop, ReadStop, SourceStop, SourceText, Sources, Subject,
    SubjectStop, TableStop,
};
use pv_edge::Files;
use pv_lex::{Language, MAX_SOURCE};
use pv_mean::CaseView;
use pv_pattern::Pattern;
use pv_tree::{Blocks, Project};
use pv_types::MAX_LEAVES;
use std::alloc::Global;

/// [`pv_command_load::read`].
pub fn read<F: Files>(alloc: Global, files: &mut F, name: &str) -> Result<Vec<u8>, ReadStop>
    ensures files { F.told files.new ≡ F.told files.old }
    ensures held { IfOk result (λ bytes. Holds (F.told files.old) name.now bytes.items) }
    ensures stopped { IfErr result (StopsRead name.now) }
    ensures counted { MatchResult result
        (λ bytes. F.read_faults files.new ≡ F.read_faults files.old)
        (λ stop. Counts (read_status stop) (F.read_faults files.old) (F.read_faults files.new)) }
    ensures named { IfErr result (λ stop. IsUnread (read_unread stop) (F.unread files.new)) }
    ensures writes { F.write_faults files.new ≡ F.write_faults files.old }
{
    pv_command_load::read(alloc, files, name)
}

/// [`pv_command_load::case_in`].
pub fn case_in<F: Files>(alloc: Global, files: &mut F, file: &str) -> Result<Case, CaseStop>
    ensures files { F.told files.new ≡ F.told files.old }
    ensures found { IfOk result (λ case. HoldsCase (F.told files.old) file.now (data_of case)) }
    ensures few { IfOk result (λ case. length case.sources.items ≤ MAX_SOURCES) }
    ensures stopped { IfErr result (StopsCase (F.told files.old) file.now) }
    ensures counted { MatchResult result
        (λ case. F.read_faults files.new ≡ F.read_faults files.old)
        (λ stop. Counts (case_status stop) (F.read_faults files.old) (F.read_faults files.new)) }
    ensures named { IfErr result (λ stop. IsUnread (case_unread stop) (F.unread files.new)) }
    ensures writes { F.write_faults files.new ≡ F.write_faults files.old }
{
    pv_command_load::case_in(alloc, files, file)
}

/// [`pv_command_load::blocks_of`].
pub fn blocks_of(
    alloc: Global,
    number: u32,
    language: Language,
    source: &SourceText,
) -> Result<Blocks, SourceStop>
    ensures read { IfOk result (λ blocks. ReadsAs number (source_named source.now language) source.now.bytes.items
        (block_trees blocks.list.items)) }
    ensures stopped { IfErr result (StopsAtSource number (source_named source.now language) source.now.bytes.items) }
{
    pv_command_load::blocks_of(alloc, number, language, source)
}

/// [`pv_command_load::sources_in`].
pub fn sources_in<F: Files>(
    alloc: Global,
    files: &mut F,
    case: &Case,
) -> Result<Sources, SourceStop>
    requires few { length case.now.sources.items ≤ MAX_SOURCES }
    ensures files { F.told files.new ≡ F.told files.old }
    ensures found { IfOk result (HasSources (F.told files.old) (data_of case.now).sources) }
    ensures stopped { IfErr result (StopsSource (F.told files.old) (data_of case.now)) }
    ensures counted { MatchResult result
        (λ sources. F.read_faults files.new ≡ F.read_faults files.old)
        (λ stop. Counts (source_status stop) (F.read_faults files.old) (F.read_faults files.new)) }
    ensures named { IfErr result (λ stop. IsUnread (source_unread stop) (F.unread files.new)) }
    ensures writes { F.write_faults files.new ≡ F.write_faults files.old }
{
    pv_command_load::sources_in(alloc, files, case)
}

/// [`pv_command_load::project_of`].
pub fn project_of(
    alloc: Global,
    sources: &[SourceText],
    blocks: Blocks,
    symbols: Vec<Symbol>,
) -> Result<Project, ProjectStop>
    requires { AreRead (map text_tree sources.now) (block_trees blocks.list.items) }
    ensures found { (given : Given) → AreGiven sources.now blocks.list.items symbols.items given
        → IfOk result (IsProjectOf given) }
    ensures stopped { (given : Given) → AreGiven sources.now blocks.list.items symbols.items given
        → IfErr result (StopsProject given) }
{
    pv_command_load::project_of(alloc, sources, blocks, symbols)
}

/// [`pv_command_load::table_of`].
pub fn table_of(alloc: Global, case: &Case, project: &Project) -> Result<(u32, Table), TableStop>
    requires short { All (λ t. length (string_bytes t) ≤ MAX_SOURCE) case.now.pattern.expressions.items }
    requires few { length project.now.blocks.list.items < 2 ^ 32 }
    ensures found { (given : Given) → IsCase case.now given.case → IsProjectOf given project.now
        → IfOk result (λ made. (entered : Entered) × IsTableOf given entered made.0 made.1) }
    ensures stopped { (given : Given) → IsCase case.now given.case → IsProjectOf given project.now
        → IfErr result (StopsTable given) }
{
    pv_command_load::table_of(alloc, case, project)
}

/// [`pv_command_load::fitted`].
pub fn fitted(
    alloc: Global,
    case: &Case,
    project: &Project,
    entry: u32,
    table: &mut Table,
) -> Result<(CaseView, Pattern), FitStop>
    requires count { length case.now.pattern.expressions.items ≡ count_of case.now.pattern.kind }
    requires short { All (λ t. length (string_bytes t) ≤ MAX_SOURCE) case.now.pattern.expressions.items }
    requires entered { HasSource (project_tree project.now) entry (wide_bytes table.old.bytes) }
    requires few { length table.old.cells.items ≤ MAX_LEAVES }
    ensures found { (given : Given) (entered : Entered) → IsCase case.now given.case
        → IsProjectOf given project.now → IsTableOf given entered entry table.old
        → IfOk result (λ made. (p : Said) × IsFit given entered entry made.0 made.1 p) }
    ensures params { IfOk result (λ made. table.new.cells.items ≡ with_view (view_tree made.0) table.old.cells.items) }
    ensures bytes { table.new.bytes ≡ table.old.bytes }
    ensures stopped { (given : Given) (entered : Entered) → IsCase case.now given.case
        → IsProjectOf given project.now → IsTableOf given entered entry table.old
        → IfErr result (StopsFit given entered) }
{
    pv_command_load::fitted(alloc, case, project, entry, table)
}

/// [`pv_command_load::subject_in`].
pub fn subject_in<F: Files>(
    alloc: Global,
    files: &mut F,
    case_file: &str,
) -> Result<Subject, SubjectStop>
    ensures files { F.told files.new ≡ F.told files.old }
    ensures found { IfOk result (λ s. (d : SubjectData) × Reads (F.told files.old) case_file.now d × IsSubject s d) }
    ensures stopped { IfErr result (StopsSubject (F.told files.old) case_file.now) }
    ensures counted { MatchResult result
        (λ s. F.read_faults files.new ≡ F.read_faults files.old)
        (λ stop. Counts (subject_status stop) (F.read_faults files.old) (F.read_faults files.new)) }
    ensures named { IfErr result (λ stop. IsUnread (subject_unread stop) (F.unread files.new)) }
    ensures writes { F.write_faults files.new ≡ F.write_faults files.old }
{
    pv_command_load::subject_in(alloc, files, case_file)
}
