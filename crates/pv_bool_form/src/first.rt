//! Blocks of the first form as Boolean programs.
//!
//! Each variable has one cell then, so the number of a word's cell is that of the variable.
ghost use Rattle.std.specs.Prelude.{◌≡◌, ◌↔◌, ◌++◌, ℕ, List, All, OnOk, map, IfOk, IfSome, IsSome};
ghost use Rattle.pv_types.specs.View.{var_tree};
ghost use Rattle.pv_bool_form.specs.Wording.{words_of};
ghost use Rattle.pv_tree.specs.Tree.{OperandTree};
ghost use Rattle.pv_tree.specs.View.{operand_tree, expr_tree, stmt_tree, stmt_trees, body_tree, block_tree};
ghost use Rattle.pv_bool.specs.Tree.{negation, term_tree, assignment_tree};
ghost use Rattle.pv_bool.specs.Programs.{program_tree};
ghost use Rattle.pv_bool_form.specs.FirstForm.{IsFirstForm, IsFirstBlock, IsFirstExpr, IsFirstPattern, IsFirstOperand};
ghost use Rattle.pv_bool_form.specs.Programs.{first_source, binary_term, term_by, assignments_of_stmt, assignments_by, assignments_of, program_of, pattern_term, pattern_program};
ghost use Rattle.pv_bool_form.specs.Requirements.{pattern_tree};
ghost use Rattle.pv_bool_form.specs.Numbering.{place_among, bit_of_var};

use crate::form::{has_few_vars, is_first_form, is_first_pattern};
use crate::requirement::Requirement;
use crate::words::Words;
use pv_bool::{Assignment, Bit, BitRole, Program, Term};
use pv_tree::{BinaryOp, Block, Body, Expr, Operand, Stmt};
use pv_types::{Section, Var};
use std::alloc::{AllocError, Global};

/// The Boolean program of a block with a requirement: a program exactly where [`is_first_block`] says
/// so of the block and [`is_first_requirement`] of the requirement. It is the program of the project
/// that is this block alone, whichever of the block's words patterns name besides, and whatever the
/// bound of loops. The one error is want of memory.
///
/// [`is_first_block`]: crate::is_first_block
/// [`is_first_requirement`]: crate::is_first_requirement
pub fn first_form(alloc: Global, block: &Block, a: &Expr) -> Result<Option<Program>, AllocError>
    ensures is_first { IfOk result (λ made. IsSome made ↔ (IsFirstBlock (block_tree block.now)
        × IsFirstExpr (block_tree block.now).vars (expr_tree a.now))) }
    ensures program { IfOk result (λ made. IfSome made (λ program.
        (patterns : List OperandTree) (bound : ℕ)
        → All (IsFirstOperand (block_tree block.now).vars) patterns
        → program_tree program
        ≡ program_of (first_source (block_tree block.now) patterns bound) (expr_tree a.now))) }
{
    first_pattern(alloc, block, Requirement::Invariant(a))
}

/// The Boolean program of a block with a pattern: a program exactly where [`is_first_block`] says so of
/// the block and the pattern is an invariant, a forbidden state, an implication or a goal whose
/// expressions are of the first form over the block's words. What is to hold of it isn't the goal but
/// that it isn't reached. It is the program of the project that is this block alone, whichever of the
/// block's words patterns name besides, and whatever the bound of loops. The one error is want of
/// memory.
///
/// [`is_first_block`]: crate::is_first_block
pub fn first_pattern(
    alloc: Global,
    block: &Block,
    required: Requirement<'_>,
) -> Result<Option<Program>, AllocError>
    ensures is_first { IfOk result (λ made. IsSome made ↔ (IsFirstBlock (block_tree block.now)
        × IsFirstPattern (block_tree block.now).vars (pattern_tree required.entry))) }
    ensures program { IfOk result (λ made. IfSome made (λ program.
        (patterns : List OperandTree) (bound : ℕ)
        → All (IsFirstOperand (block_tree block.now).vars) patterns
        → program_tree program ≡ pattern_program
        (first_source (block_tree block.now) patterns bound) (pattern_tree required.entry))) }
{
    if !has_few_vars(block) {
        return Ok(None);
    }
    let words = Words::of(alloc, block.interface.vars.as_slice())?;
    if !is_first_form(&words, block) || !is_first_pattern(&words, required) {
        return Ok(None);
    }
    Ok(Some(make_program(alloc, &words, block, required)?))
}

fn make_program(
    alloc: Global,
    words: &Words,
    block: &Block,
    required: Requirement<'_>,
) -> Result<Program, AllocError>
    requires words { words_of words.now ≡ (block_tree block.now).vars }
    requires is_first { IsFirstForm (block_tree block.now)
        × IsFirstPattern (block_tree block.now).vars (pattern_tree required) }
    ensures { IfOk result (λ program. (patterns : List OperandTree) (bound : ℕ)
        → All (IsFirstOperand (block_tree block.now).vars) patterns
        → program_tree program ≡ pattern_program
        (first_source (block_tree block.now) patterns bound) (pattern_tree required.entry)) }
{
    let bits = make_bits(alloc, words.vars())?;
    let body = body_of(alloc, words, &block.body)?;
    let holds = term_of_pattern(alloc, words, required)?;
    Ok(Program { bits, body, holds })
}

fn make_bits(alloc: Global, vars: &[Var]) -> Result<Vec<Bit>, AllocError>
    ensures { IfOk result (λ bits. bits.items ≡ map (λ v. bit_of_var (var_tree v)) vars.now) }
{
    let mut bits = Vec::with_capacity(alloc, vars.len())?;
    for var in vars {
        bits.push(make_bit(*var))?;
    }
    Ok(bits)
}

fn make_bit(var: Var) -> Bit
    ensures { result ≡ bit_of_var (var_tree var.entry) }
{
    let role = match var.of.section {
        Section::Input | Section::InOut => BitRole::Input,
        _ => BitRole::Kept,
    };
    Bit { role, start: false }
}

fn body_of(alloc: Global, words: &Words, body: &Body) -> Result<Vec<Assignment>, AllocError>
    ensures { IfOk result (λ made. map assignment_tree made.items
        ≡ assignments_of (place_among (words_of words.now)) (body_tree body.now)) }
{
    match body {
        Body::Scl(statements) => assignments(alloc, words, statements.as_slice()),
        _ => Ok(Vec::new(alloc)),
    }
}

fn assignments(
    alloc: Global,
    words: &Words,
    statements: &[Stmt],
) -> Result<Vec<Assignment>, AllocError>
    ensures { IfOk result (λ made. map assignment_tree made.items
        ≡ assignments_by (place_among (words_of words.now)) (stmt_trees statements.now)) }
{
    let mut made = Vec::with_capacity(alloc, statements.len())?;
    for statement in statements {
        push_assignment(alloc, words, statement, &mut made)?;
    }
    Ok(made)
}

fn push_assignment(
    alloc: Global,
    words: &Words,
    statement: &Stmt,
    made: &mut Vec<Assignment>,
) -> Result<(), AllocError>
    ensures { OnOk result (map assignment_tree made.new.items ≡ map assignment_tree made.old.items
        ++ assignments_of_stmt (place_among (words_of words.now)) (stmt_tree statement.now)) }
{
    match statement {
        Stmt::Assign { target, value, .. } => {
            made.push(assignment(alloc, words, target, value)?)?;
            Ok(())
        }
        _ => Ok(()),
    }
}

fn assignment(
    alloc: Global,
    words: &Words,
    target: &Operand,
    value: &Expr,
) -> Result<Assignment, AllocError>
    ensures { IfOk result (λ made. assignment_tree made ≡ record {
      target = place_among (words_of words.now) (operand_tree target.now);
      value = term_by (place_among (words_of words.now)) (expr_tree value.now);
    }) }
{
    Ok(Assignment {
        target: words.number_of(target),
        value: term_of(alloc, words, value)?,
    })
}

fn term_of(alloc: Global, words: &Words, e: &Expr) -> Result<Term, AllocError>
    ensures { IfOk result (λ made. term_tree made
        ≡ term_by (place_among (words_of words.now)) (expr_tree e.now)) }
{
    match e {
        Expr::Lit { value, .. } => Ok(Term::Constant(*value == 1)),
        Expr::Read(operand) => Ok(Term::Load(words.number_of(operand))),
        Expr::Unary { arg, .. } => Ok(Term::Not(Box::new(alloc, term_of(alloc, words, arg)?)?)),
        Expr::Binary {
            op,
            left,
            right,
            ..
        } => {
            let left = term_of(alloc, words, left)?;
            let right = term_of(alloc, words, right)?;
            make_binary(alloc, *op, left, right)
        }
        Expr::Std { .. } => Ok(Term::Constant(false)),
        Expr::Paren(_, inner) => term_of(alloc, words, inner),
    }
}

/// The term that is to hold at each end.
fn term_of_pattern(
    alloc: Global,
    words: &Words,
    required: Requirement<'_>,
) -> Result<Term, AllocError>
    ensures { IfOk result (λ made. term_tree made
        ≡ pattern_term (place_among (words_of words.now)) (pattern_tree required.entry)) }
{
    match required {
        Requirement::Invariant(a) => term_of(alloc, words, a),
        Requirement::Forbidden(a) => negation_of(alloc, words, a),
        Requirement::Implication(a, b) => {
            let negation = negation_of(alloc, words, a)?;
            let b = term_of(alloc, words, b)?;
            make_binary(alloc, BinaryOp::Or, negation, b)
        }
        Requirement::Within(_, _) => Ok(Term::Constant(false)),
        Requirement::Between(_, _, _) => Ok(Term::Constant(false)),
        Requirement::Reach(a) => negation_of(alloc, words, a),
    }
}

fn negation_of(alloc: Global, words: &Words, e: &Expr) -> Result<Term, AllocError>
    ensures { IfOk result (λ made. term_tree made
        ≡ negation (term_by (place_among (words_of words.now)) (expr_tree e.now))) }
{
    let term = term_of(alloc, words, e)?;
    Ok(Term::Not(Box::new(alloc, term)?))
}

fn make_binary(alloc: Global, op: BinaryOp, s: Term, t: Term) -> Result<Term, AllocError>
    ensures { IfOk result (λ made. term_tree made ≡ binary_term op (term_tree s) (term_tree t)) }
{
    match op {
        BinaryOp::And => Ok(Term::And(Box::new(alloc, s)?, Box::new(alloc, t)?)),
        BinaryOp::Or => Ok(Term::Or(Box::new(alloc, s)?, Box::new(alloc, t)?)),
        _ => Ok(Term::Constant(false)),
    }
}
