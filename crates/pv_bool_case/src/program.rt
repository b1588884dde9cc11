//! The Boolean program of a block with a pattern, by the texts of the pattern.
ghost use Rattle.std.specs.Prelude.{◌≡◌, ◌≤◌, ◌∷◌, ℕ, List, [], length, map, All, Some, IfOk, IfErr, slice_get, string_bytes};
ghost use Rattle.pv_lex.specs.declared.lex.TheConstants.{MAX_SOURCE};
ghost use Rattle.pv_tree.specs.Tree.{ExprTree, BlockTree};
ghost use Rattle.pv_tree.specs.Scopes.{Scope};
ghost use Rattle.pv_tree.specs.View.{block_tree, expr_tree};
ghost use Rattle.pv_mean.specs.ProjectSizes.{project_tree};
ghost use Rattle.pv_pattern.specs.Patterns.{Pattern, expressions_of};
ghost use Rattle.pv_pattern.specs.Texts.{IsTextOf, Says};
ghost use Rattle.pv_pattern_read.specs.Answers.{AnswersText};
ghost use Rattle.pv_pattern_read.specs.declared.fault.TextFault.TheVariants.{NoMemory};
ghost use Rattle.pv_pattern_read.specs.Kinds.{kind_of, IsReadPattern};
ghost use Rattle.pv_bool_form.specs.Requirements.{pattern_tree};
ghost use Rattle.pv_bool_case.specs.Programs.{AreAPattern, IsSaid, IsMadeOf};

use crate::text::said_at;
use pv_bool::Program;
use pv_bool_form::{Requirement, first_pattern};
use pv_case::PatternKind;
use pv_pattern_read::TextFault;
use pv_pattern_read::laws::{first_fault_is_one, texts_are_one_expression};
use pv_tree::{Block, Expr, Project};
use std::alloc::{AllocError, Global};

/// The only fault of a text that says something.
fn no_memory(fault: TextFault) -> AllocError
    requires { fault ≡ NoMemory }
{
    match fault {
        TextFault::NoMemory => AllocError,
        TextFault::Unread | TextFault::Broken(_) | TextFault::BriefCell | TextFault::NotBool => {
            unreachable!()
        }
    }
}

/// The expression of a text that says something.
fn kept(said: Result<Expr, TextFault>) -> Result<Expr, AllocError>
    requires { IfErr said (λ fault. fault ≡ NoMemory) }
    ensures { (scope : Scope) (text : List ℕ) → AnswersText scope text said
        → IfOk result (λ e. Says scope text (expr_tree e)) }
{
    match said {
        Ok(e) => Ok(e),
        Err(fault) => Err(no_memory(fault)),
    }
}

/// The expression that the text says over the names of the block of this number.
fn expression_at(
    alloc: Global,
    project: &Project,
    entry: u32,
    text: &str,
) -> Result<Expr, AllocError>
    requires short { length text.now ≤ MAX_SOURCE }
    requires said { IsSaid (project_tree project.now) entry text.now }
    ensures { (block : BlockTree) → slice_get (map block_tree project.now.blocks.list.items) entry ≡ Some block
        → IfOk result (λ e. Says (record { project = project_tree project.now; block = block }) text.now (expr_tree e)) }
{
    first_fault_is_one();
    let said = said_at(alloc, project, entry, text);
    kept(said)
}

/// The pattern of this kind with one expression; of a kind that has more it doesn't matter.
fn of_one<'a>(kind: PatternKind, a: &'a Expr) -> Requirement<'a>
    ensures { (p : Pattern) → kind_of p ≡ kind → expressions_of p ≡ expr_tree a.now ∷ [] → pattern_tree result ≡ p }
{
    match kind {
        PatternKind::Invariant => Requirement::Invariant(a),
        PatternKind::Forbidden => Requirement::Forbidden(a),
        PatternKind::Implication => Requirement::Within(a, a),
        PatternKind::Within => Requirement::Within(a, a),
        PatternKind::Between => Requirement::Within(a, a),
        PatternKind::Reach => Requirement::Reach(a),
    }
}

/// The same with two.
fn of_two<'a>(kind: PatternKind, a: &'a Expr, b: &'a Expr) -> Requirement<'a>
    ensures { (p : Pattern) → kind_of p ≡ kind → expressions_of p ≡ expr_tree a.now ∷ expr_tree b.now ∷ []
        → pattern_tree result ≡ p }
{
    match kind {
        PatternKind::Implication => Requirement::Implication(a, b),
        PatternKind::Invariant => Requirement::Within(a, b),
        PatternKind::Forbidden => Requirement::Within(a, b),
        PatternKind::Within => Requirement::Within(a, b),
        PatternKind::Between => Requirement::Within(a, b),
        PatternKind::Reach => Requirement::Within(a, b),
    }
}

/// The program of the block with a pattern of one text.
fn by_one(
    alloc: Global,
    project: &Project,
    entry: u32,
    block: &Block,
    kind: PatternKind,
    text: &str,
) -> Result<Option<Program>, AllocError>
    requires short { length text.now ≤ MAX_SOURCE }
    requires said { IsSaid (project_tree project.now) entry text.now }
    ensures { (entered : BlockTree) (p : Pattern)
        → slice_get (map block_tree project.now.blocks.list.items) entry ≡ Some entered
        → IsReadPattern (record { project = project_tree project.now; block = entered }) kind (text.now ∷ []) p
        → IfOk result (IsMadeOf (block_tree block.now) p) }
{
    texts_are_one_expression();
    let a = expression_at(alloc, project, entry, text)?;
    let made = first_pattern(alloc, block, of_one(kind, &a));
    drop(a);
    made
}

/// The program of the block with a pattern of an expression and a text more.
fn by_other(
    alloc: Global,
    project: &Project,
    entry: u32,
    block: &Block,
    kind: PatternKind,
    a: &Expr,
    other: &str,
) -> Result<Option<Program>, AllocError>
    requires short { length other.now ≤ MAX_SOURCE }
    requires said { IsSaid (project_tree project.now) entry other.now }
    ensures { (entered : BlockTree) (p : Pattern) (b : ExprTree) → kind_of p ≡ kind
        → slice_get (map block_tree project.now.blocks.list.items) entry ≡ Some entered
        → expressions_of p ≡ expr_tree a.now ∷ b ∷ [] → IsTextOf other.now b
        → IfOk result (IsMadeOf (block_tree block.now) p) }
{
    texts_are_one_expression();
    let b = expression_at(alloc, project, entry, other)?;
    let made = first_pattern(alloc, block, of_two(kind, a, &b));
    drop(b);
    made
}

/// The program of the block with a pattern of two texts.
fn by_two(
    alloc: Global,
    project: &Project,
    entry: u32,
    block: &Block,
    kind: PatternKind,
    text: &str,
    other: &str,
) -> Result<Option<Program>, AllocError>
    requires short { length text.now ≤ MAX_SOURCE }
    requires other_short { length other.now ≤ MAX_SOURCE }
    requires said { IsSaid (project_tree project.now) entry text.now }
    requires other_said { IsSaid (project_tree project.now) entry other.now }
    ensures { (entered : BlockTree) (p : Pattern)
        → slice_get (map block_tree project.now.blocks.list.items) entry ≡ Some entered
        → IsReadPattern (record { project = project_tree project.now; block = entered }) kind (text.now ∷ other.now ∷ []) p
        → IfOk result (IsMadeOf (block_tree block.now) p) }
{
    texts_are_one_expression();
    let a = expression_at(alloc, project, entry, text)?;
    let made = by_other(alloc, project, entry, block, kind, &a, other);
    drop(a);
    made
}

/// The program of the block with the pattern of this kind that the texts are, over the names of the block
/// of this number; none where the block or the pattern isn't of the first form, which has one text or two.
pub fn program_by(
    alloc: Global,
    project: &Project,
    entry: u32,
    block: &Block,
    kind: PatternKind,
    texts: &[String],
) -> Result<Option<Program>, AllocError>
    requires short { All (λ t. length (string_bytes t) ≤ MAX_SOURCE) texts.now }
    requires read { AreAPattern (project_tree project.now) entry kind (map string_bytes texts.now) }
    ensures { (entered : BlockTree) (p : Pattern)
        → slice_get (map block_tree project.now.blocks.list.items) entry ≡ Some entered
        → IsReadPattern (record { project = project_tree project.now; block = entered }) kind
        (map string_bytes texts.now) p
        → IfOk result (IsMadeOf (block_tree block.now) p) }
{
    match texts {
        [a] => by_one(alloc, project, entry, block, kind, a.as_str()),
        [a, b] => by_two(alloc, project, entry, block, kind, a.as_str(), b.as_str()),
        _ => Ok(None),
    }
}
