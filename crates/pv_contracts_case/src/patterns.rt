//! Calls of pv_pattern_read.
ghost use Rattle.std.specs.Prelude.{◌≡◌, ◌≤◌, length, map, All, Some, IfOk, string_bytes, slice_get};
ghost use Rattle.pv_lex.specs.declared.lex.TheConstants.{MAX_SOURCE};
ghost use Rattle.pv_tree.specs.View.{operand_tree};
ghost use Rattle.pv_names.specs.InScope.{scope_of};
ghost use Rattle.pv_mean.specs.Sources.{Source};
ghost use Rattle.pv_mean.specs.ProjectSizes.{project_tree};
ghost use Rattle.pv_bytes.specs.Lent.{bytes_tree};
ghost use Rattle.pv_pattern.specs.Texts as texts;
ghost use Rattle.pv_pattern_read.specs.Kinds.{count_of};
ghost use Rattle.pv_pattern_read.specs.Readable.{HasSource};
ghost use Rattle.pv_pattern_read.specs.Answers.{AnswersText, AnswersPattern};

use pv_bytes::AreaBytes;
use pv_names::Scope;
use pv_pattern::Pattern;
use pv_pattern_read::{PatternFault, PatternKind, TextFault};
use pv_tree::{Expr, Operand, Project};
use std::alloc::{AllocError, Global};

/// [`pv_pattern_read::said`].
pub fn said(scope: &Scope, alloc: Global, text: &str) -> Result<Expr, TextFault>
    requires { length text.now ≤ MAX_SOURCE }
    ensures { AnswersText (scope_of scope.now) text.now result }
{
    pv_pattern_read::said(scope, alloc, text)
}

/// [`pv_pattern_read::named_in`].
pub fn named_in(alloc: Global, all: &[String]) -> Result<Vec<Operand>, AllocError>
    requires { All (λ t. length (string_bytes t) ≤ MAX_SOURCE) all.now }
    ensures { IfOk result (λ named. texts.AreNamed (map string_bytes all.now) (map operand_tree named.items)) }
{
    pv_pattern_read::named_in(alloc, all)
}

/// [`pv_pattern_read::read`].
pub fn read(
    alloc: Global,
    kind: PatternKind,
    texts: &[String],
    project: &Project,
    entry: u32,
    bytes: AreaBytes,
) -> Result<Pattern, PatternFault>
    requires count { length texts.now ≡ count_of kind }
    requires short { All (λ t. length (string_bytes t) ≤ MAX_SOURCE) texts.now }
    requires entered { HasSource (project_tree project.now) entry (bytes_tree bytes) }
    ensures { (source : Source) → project_tree project.now ≡ source.project
        → slice_get source.project.blocks entry ≡ Some source.entry
        → bytes_tree bytes.entry ≡ source.bytes
        → AnswersPattern source kind (map string_bytes texts.now) result }
{
    pv_pattern_read::read(alloc, kind, texts, project, entry, bytes)
}
