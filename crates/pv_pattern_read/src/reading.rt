//! Patterns from their texts.
ghost use Rattle.std.specs.Prelude.{◌≡◌, ◌≤◌, ℕ, List, length, map, All, Some, Err, IfOk, IfErr, string_bytes, slice_get};
ghost use Rattle.pv_lex.specs.declared.lex.TheConstants.{MAX_SOURCE};
ghost use Rattle.pv_mean.specs.Sources.{Source};
ghost use Rattle.pv_mean.specs.ProjectSizes.{project_tree};
ghost use Rattle.pv_mean.specs.Sized.{sized_project};
ghost use Rattle.pv_tree.specs.Scopes.{Scope as ScopeOf};
ghost use Rattle.pv_tree.specs.View.{block_tree};
ghost use Rattle.pv_names.specs.Entries.{block_of};
ghost use Rattle.pv_names.specs.Tables.{project_of};
ghost use Rattle.pv_resolve.specs.declared.context.Context.{Context as ContextOf};
ghost use Rattle.pv_bytes.specs.Lent.{bytes_tree};
ghost use Rattle.pv_pattern_read.specs.Kinds.{count_of};
ghost use Rattle.pv_pattern_read.specs.Answers.{AnswersText, FailsBy, AnswersPattern};
ghost use Rattle.pv_pattern_read.specs.Readable.{HasSource, IsScoped, HasEntered};
ghost use Rattle.pv_pattern_read.specs.InContext.{scope_at, AreTermsIn, IsFaultOf, AnswersTerm, IsFoundIn, AnswersFound};

use crate::asking::said;
use crate::fault::{PatternFault, TextFault};
use crate::making::{only, pair, triple};
use crate::term::term_of;
use pv_bytes::AreaBytes;
use pv_case::PatternKind;
use pv_laws_room::laws::reached_blocks_have_room;
use pv_laws_types::laws::entered_blocks_are_at_work;
use pv_mean::Sizes;
use pv_mean::laws::tables_are_laid_out;
use pv_names::{Entry, Scope, Tables, entries};
use pv_pattern::{Pattern, Term};
use pv_resolve::{Context, context_of};
use pv_tree::{Project, parts_of_typed_expressions_have_types, patterns_have_types};
use std::alloc::Global;

/// How a pattern is at fault whose expression of this number is so.
fn at(expression: u8, fault: TextFault) -> PatternFault
    ensures { (scope : ScopeOf) (text : List ℕ) → AnswersText scope text (Err fault)
        → IsFaultOf scope text expression result }
{
    match fault {
        TextFault::Unread => PatternFault::Text { expression },
        TextFault::Broken(rule) => PatternFault::Rule { expression, rule },
        TextFault::BriefCell => PatternFault::BriefCell { expression },
        TextFault::NotBool => PatternFault::NotBool { expression },
        TextFault::NoMemory => PatternFault::NoMemory,
    }
}

/// The term of the text of this number.
fn term_in(
    context: &Context,
    alloc: Global,
    text: &str,
    expression: u8,
) -> Result<Term, PatternFault>
    requires short { length text.now ≤ MAX_SOURCE }
    requires entered { HasEntered context.now }
    ensures { AnswersTerm context.now text.now expression result }
{
    tables_are_laid_out();
    patterns_have_types();
    parts_of_typed_expressions_have_types();
    entered_blocks_are_at_work();
    reached_blocks_have_room();
    match said(&context.scope, alloc, text) {
        Ok(e) => match term_of(context, alloc, &e) {
            Ok(term) => Ok(term),
            Err(_) => Err(PatternFault::NoMemory),
        },
        Err(fault) => Err(at(expression, fault)),
    }
}

/// The terms of the texts, in their order.
fn terms_in(context: &Context, alloc: Global, texts: &[String]) -> Result<Vec<Term>, PatternFault>
    requires few { length texts.now ≤ 3 }
    requires short { All (λ t. length (string_bytes t) ≤ MAX_SOURCE) texts.now }
    requires entered { HasEntered context.now }
    ensures found { IfOk result (λ terms. AreTermsIn context.now terms.items (map string_bytes texts.now)) }
    ensures refused { IfErr result (λ fault. FailsBy (scope_at context.now) (map string_bytes texts.now) fault) }
{
    let mut terms = Vec::new(alloc);
    let mut n: u8 = 0;
    for text in texts {
        let term = term_in(context, alloc, text.as_str(), n)?;
        terms.push(term)?;
        n += 1;
    }
    Ok(terms)
}

/// The pattern of these terms, which are as many as the kind has.
fn pattern_of(kind: PatternKind, terms: Vec<Term>) -> Pattern
    requires { length terms.items ≡ count_of kind }
    ensures { (c : ContextOf) (all : List (List ℕ)) → AreTermsIn c terms.items all
        → IsFoundIn c kind all result }
{
    match kind {
        PatternKind::Invariant => Pattern::Invariant(only(terms)),
        PatternKind::Forbidden => Pattern::Forbidden(only(terms)),
        PatternKind::Implication => {
            let (a, b) = pair(terms);
            Pattern::Implication(a, b)
        }
        PatternKind::Within => {
            let (a, b) = pair(terms);
            Pattern::Within(a, b)
        }
        PatternKind::Between => {
            let (a, b, c) = triple(terms);
            Pattern::Between(a, b, c)
        }
        PatternKind::Reach => Pattern::Reach(only(terms)),
    }
}

/// The pattern over the names of the context's block.
fn pattern_in(
    context: &Context,
    alloc: Global,
    kind: PatternKind,
    texts: &[String],
) -> Result<Pattern, PatternFault>
    requires count { length texts.now ≡ count_of kind }
    requires short { All (λ t. length (string_bytes t) ≤ MAX_SOURCE) texts.now }
    requires entered { HasEntered context.now }
    ensures { AnswersFound context.now kind (map string_bytes texts.now) result }
{
    match terms_in(context, alloc, texts) {
        Ok(terms) => Ok(pattern_of(kind, terms)),
        Err(fault) => Err(fault),
    }
}

/// The pattern over the names of an entered block.
fn pattern_at<'p>(
    alloc: Global,
    kind: PatternKind,
    texts: &[String],
    scope: Scope<'p>,
    sizes: &'p Sizes<'p>,
    bytes: AreaBytes<'p>,
) -> Result<Pattern, PatternFault>
    requires count { length texts.now ≡ count_of kind }
    requires short { All (λ t. length (string_bytes t) ≤ MAX_SOURCE) texts.now }
    requires entered { IsScoped (project_of scope.tables.now) (sized_project sizes.now)
        (block_of scope.entry.now) (bytes_tree bytes) }
    ensures { (source : Source) → project_of scope.entry.tables.now ≡ source.project
        → sized_project sizes.now ≡ source.project → block_of scope.entry.entry.now ≡ source.entry
        → bytes_tree bytes.entry ≡ source.bytes
        → AnswersPattern source kind (map string_bytes texts.now) result }
{
    reached_blocks_have_room();
    match context_of(scope, sizes, scope.entry.block(), bytes) {
        Ok(context) => pattern_in(&context, alloc, kind, texts),
        Err(_) => unreachable!(),
    }
}

/// The pattern over the names of a block of the project, whose tables these are.
fn read_among(
    alloc: Global,
    kind: PatternKind,
    texts: &[String],
    tables: &Tables,
    project: &Project,
    entry: u32,
    bytes: AreaBytes,
) -> Result<Pattern, PatternFault>
    requires count { length texts.now ≡ count_of kind }
    requires short { All (λ t. length (string_bytes t) ≤ MAX_SOURCE) texts.now }
    requires tables { project_of tables.now ≡ project_tree project.now }
    requires entered { HasSource (project_tree project.now) entry (bytes_tree bytes) }
    ensures { (source : Source) → project_tree project.now ≡ source.project
        → slice_get source.project.blocks entry ≡ Some source.entry
        → bytes_tree bytes.entry ≡ source.bytes
        → AnswersPattern source kind (map string_bytes texts.now) result }
{
    let sizes = Sizes::of(alloc, project)?;
    match tables.entries().get(entry as usize) {
        Some(entered) => {
            let scope = Scope {
                tables,
                entry: entered,
            };
            pattern_at(alloc, kind, texts, scope, &sizes, bytes)
        }
        None => unreachable!(),
    }
}

/// The same, where these are the project's blocks with their tables of variables.
fn read_listed(
    alloc: Global,
    kind: PatternKind,
    texts: &[String],
    list: &[Entry],
    project: &Project,
    entry: u32,
    bytes: AreaBytes,
) -> Result<Pattern, PatternFault>
    requires count { length texts.now ≡ count_of kind }
    requires short { All (λ t. length (string_bytes t) ≤ MAX_SOURCE) texts.now }
    requires list { map block_of list.now ≡ map block_tree project.now.blocks.list.items }
    requires entered { HasSource (project_tree project.now) entry (bytes_tree bytes) }
    ensures { (source : Source) → project_tree project.now ≡ source.project
        → slice_get source.project.blocks entry ≡ Some source.entry
        → bytes_tree bytes.entry ≡ source.bytes
        → AnswersPattern source kind (map string_bytes texts.now) result }
{
    let tables = Tables::of(alloc, list, project.symbols())?;
    read_among(alloc, kind, texts, &tables, project, entry, bytes)
}

/// The pattern of this kind whose expressions are the texts a, b and c, over the names of the entered block, which goes by its number
/// in the project; these bytes of areas have cells. Names go by the numbers of cells in it. The project has a table of at most as many
/// cells as a table may have, and the entered block has no value of its own.
///
/// `Text`, `Rule`, `BriefCell` or `NotBool` where a text reads as no expression, breaks a rule, reads a variable that lives for one
/// activation, or isn't BOOL: the first text that is at fault, and of it the first of these in this order.
pub fn read(
    alloc: Global,
    kind: PatternKind,
    texts: &[String],
    project: &Project,
    entry: u32,
    bytes: AreaBytes,
) -> Result<Pattern, PatternFault>
    requires count { length texts.now ≡ count_of kind }
    requires short { All (λ t. length (string_bytes t) ≤ MAX_SOURCE) texts.now }
    requires entered { HasSource (project_tree project.now) entry (bytes_tree bytes) }
    ensures { (source : Source) → project_tree project.now ≡ source.project
        → slice_get source.project.blocks entry ≡ Some source.entry
        → bytes_tree bytes.entry ≡ source.bytes
        → AnswersPattern source kind (map string_bytes texts.now) result }
{
    let list = entries(alloc, project.blocks().list.as_slice())?;
    read_listed(alloc, kind, texts, list.as_slice(), project, entry, bytes)
}
