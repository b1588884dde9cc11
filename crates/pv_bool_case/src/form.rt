//! Whether a case, and a project, is of the first form.
ghost use Rattle.std.specs.Prelude.{◌≡◌, ◌↔◌, ◌∷◌, [], map, IsTrue, IfOk, IfSome, IfNone, string_bytes};
ghost use Rattle.pv_lex.specs.declared.token.Language.TheVariants.{Scl as In_scl};
ghost use Rattle.pv_tree.specs.Tree.{BlockTree};
ghost use Rattle.pv_tree.specs.View.{block_tree};
ghost use Rattle.pv_case.specs.Cases.{SourceData, source_data, bound_data, symbol_data, data_of};
ghost use Rattle.pv_bool_case.specs.Forms.{IsOneSource, IsFirstKind, IsFirstCase, IsFirstAlone};

use pv_bool_form::is_first_block;
use pv_case::{Bound, Case, PatternKind, Source, Symbol};
use pv_lex::Language;
use pv_tree::{Block, Project};
use std::alloc::{AllocError, Global};

fn is_scl(language: Language) -> bool
    ensures { IsTrue result ↔ (language ≡ In_scl) }
{
    match language {
        Language::Scl => true,
        Language::Stl => false,
    }
}

/// Whether there is one source, of SCL.
fn is_one_source(sources: &[Source]) -> bool
    ensures { IsTrue result ↔ IsOneSource (map source_data sources.now) }
{
    match sources {
        [source] => is_scl(source.language),
        _ => false,
    }
}

fn is_first_kind(kind: PatternKind) -> bool
    ensures { IsTrue result ↔ IsFirstKind kind }
{
    match kind {
        PatternKind::Invariant => true,
        PatternKind::Forbidden => true,
        PatternKind::Implication => true,
        PatternKind::Within => false,
        PatternKind::Between => false,
        PatternKind::Reach => true,
    }
}

fn has_no_texts(texts: &[String]) -> bool
    ensures { IsTrue result ↔ (map string_bytes texts.now ≡ []) }
{
    match texts {
        [] => true,
        _ => false,
    }
}

fn has_no_bounds(bind: &[Bound]) -> bool
    ensures { IsTrue result ↔ (map bound_data bind.now ≡ []) }
{
    match bind {
        [] => true,
        _ => false,
    }
}

fn has_no_symbols(symbols: &[Symbol]) -> bool
    ensures { IsTrue result ↔ (map symbol_data symbols.now ≡ []) }
{
    match symbols {
        [] => true,
        _ => false,
    }
}

/// Whether the case has no parameters, no bound inputs and no symbols.
fn has_no_extras(case: &Case) -> bool
    ensures { IsTrue result ↔ ((data_of case.now).params ≡ []) × ((data_of case.now).bind ≡ [])
        × ((data_of case.now).symbols ≡ []) }
{
    has_no_texts(case.params.as_slice())
        && has_no_bounds(case.bind.as_slice())
        && has_no_symbols(case.symbols.as_slice())
}

/// Whether the case is of the first form: one source of SCL with a pattern of a scan's end, without
/// parameters, bound inputs and symbols. Reductions and a certificate play no part.
pub fn is_first_case(case: &Case) -> bool
    ensures { IsTrue result ↔ IsFirstCase (data_of case.now) }
{
    is_one_source(case.sources.as_slice())
        && is_first_kind(case.pattern.kind)
        && has_no_extras(case)
}

/// The name of the file of the case's one source.
pub fn source_file(case: &Case) -> Option<&String>
    ensures some { IfSome result (λ file. (source : SourceData) × ((data_of case.now).sources ≡ source ∷ [])
        × (string_bytes file.now ≡ source.file)) }
    ensures none { IfNone result ((source : SourceData) → (data_of case.now).sources ≡ source ∷ [] → ⊥) }
{
    match case.sources.as_slice() {
        [source] => Some(&source.file),
        _ => None,
    }
}

/// The block of the project, if it has one alone.
pub fn only_block(project: &Project) -> Option<&Block>
    ensures some { IfSome result (λ block. map block_tree project.now.blocks.list.items ≡ block_tree block.now ∷ []) }
    ensures none { IfNone result ((block : BlockTree) → map block_tree project.now.blocks.list.items ≡ block ∷ [] → ⊥) }
{
    match project.blocks().list.as_slice() {
        [block] => Some(block),
        _ => None,
    }
}

/// Whether the project is one block of the first form. The one error is want of memory.
pub fn is_first_project(alloc: Global, project: &Project) -> Result<bool, AllocError>
    ensures { IfOk result (λ is. IsTrue is ↔ IsFirstAlone (map block_tree project.now.blocks.list.items)) }
{
    match only_block(project) {
        Some(block) => is_first_block(alloc, block),
        None => Ok(false),
    }
}
