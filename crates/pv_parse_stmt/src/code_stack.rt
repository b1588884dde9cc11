//! Parts of statements, taken off the stack.
ghost use Rattle.std.specs.Prelude.{◌≡◌, option_map};
ghost use Rattle.pv_tree.specs.View.{stmt_tree};
ghost use Rattle.pv_parse.specs.CodeItems.{code_of, value_tree, stmt_list, arm_list, else_list, choice_list, branch_list};
ghost use Rattle.pv_parse.specs.Items.{stack_of, Pops, Finds};
ghost use Rattle.pv_parse.specs.CodeStack.{value_in, stmt_in, stmts_in, arms_in, else_in, by_in, choice_in, choices_in, branches_in, value_on, stmt_on, stmts_on, arms_on, else_on, by_on, choice_on, choices_on, branches_on};

use pv_parse::{CodeItem, Item, Stop, Value};
use pv_parse_call::{mistyped_code, pop_code};
use pv_tree::{Choice, ChoiceRange, Expr, Stmt};
use pv_types::Literal;

fn value_in(item: CodeItem) -> Result<Value, Stop>
    ensures { Finds value_tree result (value_in (code_of item)) }
{
    match item {
        CodeItem::Value(found) => Ok(found),
        other => Err(mistyped_code(other)),
    }
}

/// Takes the right side of an assignment.
pub fn pop_value<'a>(stack: &mut Vec<Item<'a>>) -> Result<Value, Stop>
    ensures { Pops value_tree result (stack_of stack.new) (value_on (stack_of stack.old)) }
{
    let item = pop_code(stack)?;
    let found = value_in(item)?;
    Ok(found)
}

fn stmt_in(item: CodeItem) -> Result<Stmt, Stop>
    ensures { Finds stmt_tree result (stmt_in (code_of item)) }
{
    match item {
        CodeItem::Stmt(found) => Ok(found),
        other => Err(mistyped_code(other)),
    }
}

/// Takes a statement.
pub fn pop_stmt<'a>(stack: &mut Vec<Item<'a>>) -> Result<Stmt, Stop>
    ensures { Pops stmt_tree result (stack_of stack.new) (stmt_on (stack_of stack.old)) }
{
    let item = pop_code(stack)?;
    let found = stmt_in(item)?;
    Ok(found)
}

fn stmts_in(item: CodeItem) -> Result<Vec<Stmt>, Stop>
    ensures { Finds stmt_list result (stmts_in (code_of item)) }
{
    match item {
        CodeItem::Stmts(found) => Ok(found),
        other => Err(mistyped_code(other)),
    }
}

/// Takes a list of statements.
pub fn pop_stmts<'a>(stack: &mut Vec<Item<'a>>) -> Result<Vec<Stmt>, Stop>
    ensures { Pops stmt_list result (stack_of stack.new) (stmts_on (stack_of stack.old)) }
{
    let item = pop_code(stack)?;
    let found = stmts_in(item)?;
    Ok(found)
}

/// Takes a list of statements to which no more comes, with no room beyond them.
pub fn pop_whole<'a>(stack: &mut Vec<Item<'a>>) -> Result<Vec<Stmt>, Stop>
    ensures { Pops stmt_list result (stack_of stack.new) (stmts_on (stack_of stack.old)) }
{
    let mut found = pop_stmts(stack)?;
    found.shrink_to_fit();
    Ok(found)
}

fn arms_in(item: CodeItem) -> Result<Vec<(Expr, Vec<Stmt>)>, Stop>
    ensures { Finds arm_list result (arms_in (code_of item)) }
{
    match item {
        CodeItem::Arms(found) => Ok(found),
        other => Err(mistyped_code(other)),
    }
}

/// Takes the conditions of an IF.
pub fn pop_arms<'a>(stack: &mut Vec<Item<'a>>) -> Result<Vec<(Expr, Vec<Stmt>)>, Stop>
    ensures { Pops arm_list result (stack_of stack.new) (arms_on (stack_of stack.old)) }
{
    let item = pop_code(stack)?;
    let found = arms_in(item)?;
    Ok(found)
}

fn else_in(item: CodeItem) -> Result<Option<Box<Vec<Stmt>>>, Stop>
    ensures { Finds else_list result (else_in (code_of item)) }
{
    match item {
        CodeItem::Else(found) => Ok(found),
        other => Err(mistyped_code(other)),
    }
}

/// Takes what stands behind ELSE.
pub fn pop_else<'a>(stack: &mut Vec<Item<'a>>) -> Result<Option<Box<Vec<Stmt>>>, Stop>
    ensures { Pops else_list result (stack_of stack.new) (else_on (stack_of stack.old)) }
{
    let item = pop_code(stack)?;
    let found = else_in(item)?;
    Ok(found)
}

fn by_in(item: CodeItem) -> Result<Option<Box<Literal>>, Stop>
    ensures { Finds (λ step. option_map (λ literal. literal.value) step) result (by_in (code_of item)) }
{
    match item {
        CodeItem::By(found) => Ok(found),
        other => Err(mistyped_code(other)),
    }
}

/// A literal out of its box, where there is one.
fn unboxed(literal: Option<Box<Literal>>) -> Option<Literal>
    ensures { result ≡ option_map (λ literal. literal.value) literal }
{
    match literal {
        Some(literal) => Some(Box::into_inner(literal)),
        None => None,
    }
}

/// Takes what stands behind BY.
pub fn pop_by<'a>(stack: &mut Vec<Item<'a>>) -> Result<Option<Literal>, Stop>
    ensures { Pops (λ step. step) result (stack_of stack.new) (by_on (stack_of stack.old)) }
{
    let item = pop_code(stack)?;
    let found = by_in(item)?;
    Ok(unboxed(found))
}

fn choice_in(item: CodeItem) -> Result<Box<Choice>, Stop>
    ensures { Finds (λ choice. choice.value) result (choice_in (code_of item)) }
{
    match item {
        CodeItem::Choice(found) => Ok(found),
        other => Err(mistyped_code(other)),
    }
}

/// Takes a value of a label, in its box.
pub fn pop_boxed_choice<'a>(stack: &mut Vec<Item<'a>>) -> Result<Box<Choice>, Stop>
    ensures { Pops (λ choice. choice.value) result (stack_of stack.new) (choice_on (stack_of stack.old)) }
{
    let item = pop_code(stack)?;
    let found = choice_in(item)?;
    Ok(found)
}

/// Takes a value of a label.
pub fn pop_choice<'a>(stack: &mut Vec<Item<'a>>) -> Result<Choice, Stop>
    ensures { Pops (λ choice. choice) result (stack_of stack.new) (choice_on (stack_of stack.old)) }
{
    let found = pop_boxed_choice(stack)?;
    Ok(Box::into_inner(found))
}

fn choices_in(item: CodeItem) -> Result<Vec<ChoiceRange>, Stop>
    ensures { Finds choice_list result (choices_in (code_of item)) }
{
    match item {
        CodeItem::Choices(found) => Ok(found),
        other => Err(mistyped_code(other)),
    }
}

/// Takes the values of a label.
pub fn pop_choices<'a>(stack: &mut Vec<Item<'a>>) -> Result<Vec<ChoiceRange>, Stop>
    ensures { Pops choice_list result (stack_of stack.new) (choices_on (stack_of stack.old)) }
{
    let item = pop_code(stack)?;
    let found = choices_in(item)?;
    Ok(found)
}

/// Takes the values of a label to which no more come, with no room beyond them.
pub fn pop_label<'a>(stack: &mut Vec<Item<'a>>) -> Result<Vec<ChoiceRange>, Stop>
    ensures { Pops choice_list result (stack_of stack.new) (choices_on (stack_of stack.old)) }
{
    let mut found = pop_choices(stack)?;
    found.shrink_to_fit();
    Ok(found)
}

fn branches_in(item: CodeItem) -> Result<Vec<(Vec<ChoiceRange>, Vec<Stmt>)>, Stop>
    ensures { Finds branch_list result (branches_in (code_of item)) }
{
    match item {
        CodeItem::Branches(found) => Ok(found),
        other => Err(mistyped_code(other)),
    }
}

/// Takes the branches of a CASE.
pub fn pop_branches<'a>(
    stack: &mut Vec<Item<'a>>,
) -> Result<Vec<(Vec<ChoiceRange>, Vec<Stmt>)>, Stop>
    ensures { Pops branch_list result (stack_of stack.new) (branches_on (stack_of stack.old)) }
{
    let item = pop_code(stack)?;
    let found = branches_in(item)?;
    Ok(found)
}
