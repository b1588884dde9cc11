//! What a command works on that is of the first form, by all its stages up to that.
ghost use Rattle.std.specs.Prelude.{◌≡◌, ◌≢◌, ◌≤◌, ℕ, List, [], Option, length, map, All, Some, Ok, Err, IfOk, IfErr, MatchResult, slice_get, string_bytes};
ghost use Rattle.pv_edge.specs.Files.{FileMap};
ghost use Rattle.pv_lex.specs.declared.lex.TheConstants.{MAX_SOURCE};
ghost use Rattle.pv_tree.specs.View.{block_trees};
ghost use Rattle.pv_case.specs.Cases.{data_of};
ghost use Rattle.pv_command_load.specs.Held.{Counts, IsUnread};
ghost use Rattle.pv_command_load.specs.ReadTexts.{AreRead};
ghost use Rattle.pv_command_load.specs.Stops.{text_tree};
ghost use Rattle.pv_command_load.specs.Subjects.{Given, blocks_of, SubjectData};
ghost use Rattle.pv_command_load.specs.Reads.{HoldsCase, ReadsSources, Reads};
ghost use Rattle.pv_command_load.specs.Made.{IsCase, AreGiven, IsProjectOf};
ghost use Rattle.pv_bool_case.specs.Forms.{IsFirstCase, IsFirstAlone};
ghost use Rattle.pv_bool_load.specs.Forms.{AreFirst, ReadsFirst};
ghost use Rattle.pv_bool_load.specs.Stops.{first_stop_status, first_stop_unread, StopsFirst};
ghost use Rattle.pv_bool_load.specs.Made.{AreOfFirst, IsFirstSubject, IsProgramOf};

use crate::stop::FirstStop;
use pv_bool::Program;
use pv_bool_case::{is_first_case, is_first_project, only_block, program_by, source_file};
use pv_case::Case;
use pv_command_load::{SourceText, Subject, case_in, fitted, project_of, sources_in, table_of};
use pv_edge::Files;
use pv_mean::laws::views_keep_paths_types_and_starts;
use pv_pattern_read::laws::texts_are_one_expression;
use pv_tree::{Blocks, Project};
use std::alloc::Global;

/// What a command works on that is of the first form, with its Boolean program: that of its one block
/// with its pattern.
#[derive(Drop)]
pub struct FirstSubject {
    pub subject: Subject,
    pub program: Program,
}

/// The case that the file holds, which is of the first form.
fn first_case_in<F: Files>(alloc: Global, files: &mut F, case_file: &str) -> Result<Case, FirstStop>
    ensures files { F.told files.new ≡ F.told files.old }
    ensures found { IfOk result (λ case. HoldsCase (F.told files.old) case_file.now (data_of case) × IsFirstCase (data_of case)) }
    ensures stopped { IfErr result (StopsFirst (F.told files.old) case_file.now) }
    ensures counted { MatchResult result
        (λ case. F.read_faults files.new ≡ F.read_faults files.old)
        (λ stop. Counts (first_stop_status stop) (F.read_faults files.old) (F.read_faults files.new)) }
    ensures named { IfErr result (λ stop. IsUnread (first_stop_unread stop) (F.unread files.new)) }
    ensures writes { F.write_faults files.new ≡ F.write_faults files.old }
{
    let case = case_in(alloc, files, case_file)?;
    if is_first_case(&case) {
        Ok(case)
    } else {
        let file = String::from_str(alloc, case_file)?;
        Err(FirstStop::CaseForm { file })
    }
}

/// The project of the case's source, which is one block of the first form.
fn first_project(
    alloc: Global,
    case: &Case,
    texts: &[SourceText],
    blocks: Blocks,
) -> Result<Project, FirstStop>
    requires first { IsFirstCase (data_of case.now) }
    requires read { AreRead (map text_tree texts.now) (block_trees blocks.list.items) }
    ensures found { (given : Given) → data_of case.now ≡ given.case → IsFirstCase given.case
        → AreGiven texts.now blocks.list.items [] given
        → IfOk result (λ project. IsProjectOf given project × IsFirstAlone (blocks_of given)) }
    ensures stopped { (told : Option FileMap) (case_file : List ℕ) (given : Given)
        → data_of case.now ≡ given.case → IsFirstCase given.case
        → AreGiven texts.now blocks.list.items [] given → ReadsSources told case_file given
        → IfErr result (StopsFirst told case_file) }
    ensures unread { IfErr result (λ stop. first_stop_status stop ≢ 6) }
{
    let project = project_of(alloc, texts, blocks, Vec::new(alloc))?;
    if is_first_project(alloc, &project)? {
        return Ok(project);
    }
    match source_file(case) {
        Some(file) => {
            let file = String::from_str(alloc, file.as_str())?;
            Err(FirstStop::SourceForm { file })
        }
        None => unreachable!(),
    }
}

/// The program of the project's one block with the case's requirement, which has been read.
fn program_in(
    alloc: Global,
    case: &Case,
    project: &Project,
    entry: u32,
    case_file: &str,
) -> Result<Program, FirstStop>
    requires short { All (λ t. length (string_bytes t) ≤ MAX_SOURCE) case.now.pattern.expressions.items }
    requires first { AreOfFirst case.now project.now entry }
    ensures found { (told : Option FileMap) (s : SubjectData) → IsCase case.now s.given.case → AreFirst s.given
        → Reads told case_file.now s → IsProjectOf s.given project.now
        → slice_get (blocks_of s.given) entry ≡ Some s.entered.block
        → IfOk result (IsProgramOf told case_file.now s) }
    ensures stopped { (told : Option FileMap) (s : SubjectData) → IsCase case.now s.given.case → AreFirst s.given
        → Reads told case_file.now s → IsProjectOf s.given project.now
        → slice_get (blocks_of s.given) entry ≡ Some s.entered.block
        → IfErr result (StopsFirst told case_file.now) }
    ensures unread { IfErr result (λ stop. first_stop_status stop ≢ 6) }
{
    texts_are_one_expression();
    let Some(block) = only_block(project) else {
        unreachable!();
    };
    let kind = case.pattern.kind;
    let texts = case.pattern.expressions.as_slice();
    match program_by(alloc, project, entry, block, kind, texts)? {
        Some(program) => Ok(program),
        None => {
            let file = String::from_str(alloc, case_file)?;
            Err(FirstStop::CaseForm { file })
        }
    }
}

/// A subject with its program, where there is one.
fn with_program(
    subject: Subject,
    made: Result<Program, FirstStop>,
) -> Result<FirstSubject, FirstStop>
    ensures ok { IfOk result (λ first. (first.subject ≡ subject) × (made ≡ Ok first.program)) }
    ensures err { IfErr result (λ stop. made ≡ Err stop) }
{
    match made {
        Ok(program) => Ok(FirstSubject { subject, program }),
        Err(stop) => {
            drop(subject);
            Err(stop)
        }
    }
}

/// What the case that the file holds is about: the case is read and refused first, then its form, then its source, the rules, the
/// source's form, the entry, the count of the cells, the requirement, and the requirement's form.
pub fn first_subject_in<F: Files>(
    alloc: Global,
    files: &mut F,
    case_file: &str,
) -> Result<FirstSubject, FirstStop>
    ensures files { F.told files.new ≡ F.told files.old }
    ensures found { IfOk result (λ made. (s : SubjectData) × ReadsFirst (F.told files.old) case_file.now s × IsFirstSubject made s) }
    ensures stopped { IfErr result (StopsFirst (F.told files.old) case_file.now) }
    ensures counted { MatchResult result
        (λ made. F.read_faults files.new ≡ F.read_faults files.old)
        (λ stop. Counts (first_stop_status stop) (F.read_faults files.old) (F.read_faults files.new)) }
    ensures named { IfErr result (λ stop. IsUnread (first_stop_unread stop) (F.unread files.new)) }
    ensures writes { F.write_faults files.new ≡ F.write_faults files.old }
{
    views_keep_paths_types_and_starts();
    let case = first_case_in(alloc, files, case_file)?;
    let sources = sources_in(alloc, files, &case)?;
    let texts = sources.texts;
    let project = first_project(alloc, &case, texts.as_slice(), sources.blocks)?;
    let (entry, mut table) = table_of(alloc, &case, &project)?;
    let (view, pattern) = fitted(alloc, &case, &project, entry, &mut table)?;
    let made = program_in(alloc, &case, &project, entry, case_file);
    let subject = Subject {
        case,
        sources: texts,
        project,
        table,
        view,
        pattern,
    };
    with_program(subject, made)
}
