//! Whether a block and an expression are of the first form: each test is of one part of the tree.
ghost use Rattle.std.specs.Prelude.{◌≡◌, ◌≤◌, ◌↔◌, ◌⊎◌, ℕ, List, All, IfOk, IsTrue, length, map, Some, None};
ghost use Rattle.pv_types.specs.Tree.{plain};
ghost use Rattle.pv_types.specs.View.{type_tree, vars_tree, var_trees};
ghost use Rattle.pv_bool_form.specs.Wording.{words_of};
ghost use Rattle.pv_tree.specs.Tree.{no_steps};
ghost use Rattle.pv_tree.specs.View.{operand_tree, step_tree, steps_of, expr_tree, stmt_tree, stmt_trees, body_tree, block_tree};
ghost use Rattle.pv_bool_form.specs.FirstForm.{IsFirstSection, IsFirstVar, IsFirstOperand, IsTruth, IsFirstExpr, IsFirstPattern, IsFirstStmt, AreFirstStmts, IsFirstBody, IsFirstForm, IsFirstBlock};
ghost use Rattle.pv_bool_form.specs.Requirements.{pattern_tree};

use crate::requirement::Requirement;
use crate::words::Words;
use pv_tree::{BinaryOp, Block, BlockKind, Body, Expr, Operand, Step, Stmt, UnaryOp};
use pv_types::{DeclType, Interface, MAX_LEAVES, Section, Vars, are_at_most};
use pv_word::Ty;
use std::alloc::{AllocError, Global};

/// Whether programs are made of the block: whether it is of the first form, with at most [`MAX_LEAVES`]
/// variables. The one error is want of memory.
pub fn is_first_block(alloc: Global, block: &Block) -> Result<bool, AllocError>
    ensures { IfOk result (λ is. IsTrue is ↔ IsFirstBlock (block_tree block.now)) }
{
    if !has_few_vars(block) {
        return Ok(false);
    }
    let words = Words::of(alloc, block.interface.vars.as_slice())?;
    Ok(is_first_form(&words, block))
}

/// Whether a requirement is an expression of the first form over the words that the block declares.
/// The one error is want of memory.
pub fn is_first_requirement(alloc: Global, block: &Block, a: &Expr) -> Result<bool, AllocError>
    requires few { length (block_tree block.now).vars ≤ MAX_LEAVES }
    ensures { IfOk result (λ is. IsTrue is ↔ IsFirstExpr (block_tree block.now).vars (expr_tree a.now)) }
{
    let words = Words::of(alloc, block.interface.vars.as_slice())?;
    Ok(is_first_expr(&words, a))
}

/// Whether the block has no more variables than a table has cells.
pub(crate) fn has_few_vars(block: &Block) -> bool
    ensures { IsTrue result ↔ (length (block_tree block.now).vars ≤ MAX_LEAVES) }
{
    are_at_most(block.interface.vars.as_slice(), MAX_LEAVES)
}

/// Whether the block, whose words these are, is of the first form.
pub(crate) fn is_first_form(words: &Words, block: &Block) -> bool
    requires words { words_of words.now ≡ (block_tree block.now).vars }
    ensures { IsTrue result ↔ IsFirstForm (block_tree block.now) }
{
    is_plain_function_block(block)
        && is_first_interface(&block.interface)
        && is_first_body(words, &block.body)
}

/// Whether it is a function block without a value of its own.
fn is_plain_function_block(block: &Block) -> bool
    ensures { IsTrue result ↔ ((block.now.kind ≡ BlockKind.Fb)
        × (block.now.interface.value ≡ None)) }
{
    match block.kind {
        BlockKind::Fb => block.interface.value.is_none(),
        _ => false,
    }
}

fn is_first_interface(interface: &Interface) -> bool
    ensures { IsTrue result ↔ All IsFirstVar (var_trees interface.now.vars.items) }
{
    are_first_vars(interface.vars.as_slice())
}

fn are_first_vars(vars: &[Vars]) -> bool
    ensures { IsTrue result ↔ All (λ v. All IsFirstVar (vars_tree v)) vars.now }
{
    vars.iter().all(|v| are_first_words(v))
}

fn are_first_words(v: &Vars) -> bool
    ensures { IsTrue result ↔ All IsFirstVar (vars_tree v.now) }
{
    if v.names.is_empty() {
        return true;
    }
    is_first_declared(v)
}

fn is_first_declared(v: &Vars) -> bool
    ensures { IsTrue result ↔ (IsFirstSection v.now.section × (type_tree v.now.ty ≡ plain Ty.Bool)
        × (v.now.start ≡ None)) }
{
    is_first_section(v.section) && is_bool(&v.ty) && v.start.is_none()
}

fn is_first_section(section: Section) -> bool
    ensures { IsTrue result ↔ IsFirstSection section }
{
    match section {
        Section::Input | Section::Output | Section::Static => true,
        Section::InOut | Section::Temp | Section::Const => false,
    }
}

fn is_bool(ty: &DeclType) -> bool
    ensures { IsTrue result ↔ (type_tree ty.now ≡ plain Ty.Bool) }
{
    match ty {
        DeclType::Plain(Ty::Bool) => true,
        _ => false,
    }
}

fn is_first_body(words: &Words, body: &Body) -> bool
    ensures { IsTrue result ↔ IsFirstBody (words_of words.now) (body_tree body.now) }
{
    match body {
        Body::Scl(statements) => are_first_statements(words, statements.as_slice()),
        _ => false,
    }
}

fn are_first_statements(words: &Words, statements: &[Stmt]) -> bool
    ensures { IsTrue result
        ↔ All (λ s. IsFirstStmt (words_of words.now) (stmt_tree s)) statements.now }
{
    statements.iter().all(|s| is_first_stmt(words, s))
}

fn is_first_stmt(words: &Words, statement: &Stmt) -> bool
    ensures { IsTrue result ↔ IsFirstStmt (words_of words.now) (stmt_tree statement.now) }
{
    match statement {
        Stmt::Assign { target, value, .. } => {
            is_first_operand(words, target) && is_first_expr(words, value)
        }
        _ => false,
    }
}

/// Whether the expression is of the first form over these words.
pub(crate) fn is_first_expr(words: &Words, e: &Expr) -> bool
    ensures { IsTrue result ↔ IsFirstExpr (words_of words.now) (expr_tree e.now) }
{
    match e {
        Expr::Lit { ty, value, .. } => is_truth(*ty, *value),
        Expr::Read(operand) => is_first_operand(words, operand),
        Expr::Unary { op, arg, .. } => is_not(*op) && is_first_expr(words, arg),
        Expr::Binary {
            op,
            left,
            right,
            ..
        } => { is_and_or_or(*op) && is_first_expr(words, left) && is_first_expr(words, right) }
        Expr::Std { .. } => false,
        Expr::Paren(_, inner) => is_first_expr(words, inner),
    }
}

/// Whether it is a requirement of a scan's end, with expressions of the first form over these words.
pub(crate) fn is_first_pattern(words: &Words, required: Requirement<'_>) -> bool
    ensures { IsTrue result ↔ IsFirstPattern (words_of words.now) (pattern_tree required.entry) }
{
    match required {
        Requirement::Invariant(a) => is_first_expr(words, a),
        Requirement::Forbidden(a) => is_first_expr(words, a),
        Requirement::Implication(a, b) => is_first_expr(words, a) && is_first_expr(words, b),
        Requirement::Within(_, _) => false,
        Requirement::Between(_, _, _) => false,
        Requirement::Reach(a) => is_first_expr(words, a),
    }
}

fn is_truth(ty: Option<Ty>, value: i128) -> bool
    ensures { IsTrue result ↔ ((ty ≡ Some Ty.Bool) × IsTruth value) }
{
    match ty {
        Some(Ty::Bool) => value == 0 || value == 1,
        _ => false,
    }
}

fn is_not(op: UnaryOp) -> bool
    ensures { IsTrue result ↔ (op ≡ UnaryOp.Not) }
{
    match op {
        UnaryOp::Not => true,
        _ => false,
    }
}

fn is_and_or_or(op: BinaryOp) -> bool
    ensures { IsTrue result ↔ ((op ≡ BinaryOp.And) ⊎ (op ≡ BinaryOp.Or)) }
{
    match op {
        BinaryOp::And | BinaryOp::Or => true,
        _ => false,
    }
}

fn is_first_operand(words: &Words, operand: &Operand) -> bool
    ensures { IsTrue result ↔ IsFirstOperand (words_of words.now) (operand_tree operand.now) }
{
    words.has(&operand.root) && is_none(operand.steps.as_slice())
}

/// Whether there are no steps.
fn is_none(steps: &[Step]) -> bool
    ensures { IsTrue result ↔ (steps_of (map step_tree steps.now) ≡ no_steps) }
{
    steps.is_empty()
}
