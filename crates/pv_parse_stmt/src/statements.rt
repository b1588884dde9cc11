//! What alternatives of statements make of what lies on the stack.
ghost use Rattle.std.specs.Prelude.{◌≡◌, ◌∷◌, ◌++◌, Some, None, option_and_then, option_map};
ghost use Rattle.pv_tree.specs.declared.stmt.Choice.{Choice as A_choice};
ghost use Rattle.pv_tree.specs.View.{stmt_tree};
ghost use Rattle.pv_parse.specs.ExprDeeds.{operand_of};
ghost use Rattle.pv_parse.specs.CodeItems.{arm_tree, value_tree, stmt_list, branch_list, choice_list, code_of};
ghost use Rattle.pv_parse.specs.CodeItems.{statement, choices, cases};
ghost use Rattle.pv_parse.specs.Items.{stack_of, path_tree, code, Leaves, Pops};
ghost use Rattle.pv_parse.specs.StmtDeeds.{single_of, drop_deed, empty_deed, single_deed, call_statement_deed, assigned, assign_deed, new_list_deed, add_deed, arm_on, first_arm_deed, next_arm_deed, else_deed, no_else_deed, if_deed, literal_choice_deed, word_choice_deed, upper_on, first_range_deed, first_choice_deed, added_choice, next_range_deed, next_choice_deed, new_branches_deed, opened, label_deed, closed_on, next_label_deed, branches_deed, case_deed, by_deed, no_by_deed, body_on, for_deed, while_deed, repeat_deed, stmt_deed};

use crate::code_stack::{
    pop_arms, pop_boxed_choice, pop_branches, pop_by, pop_choice, pop_choices, pop_else, pop_label,
    pop_stmt, pop_stmts, pop_value, pop_whole,
};
use crate::making::{case_of, if_of};
use pv_parse::{
    CodeItem, Item, StmtAction, Stop, Value, added, is_text, pop_boxed, pop_expr, pop_path,
    pop_token, push, with,
};
use pv_parse_call::{path_name, pop_call, pop_literal};
use pv_place::Place;
use pv_tree::{Choice, ChoiceRange, Expr, ForHead, Operand, Stmt};
use std::alloc::Global;

/// The values of a label.
type Choices = Vec<ChoiceRange>;

/// A token is forgotten.
fn forget(stack: &mut Vec<Item>) -> Result<(), Stop>
    ensures { Leaves result (stack_of stack.new) (drop_deed (stack_of stack.old)) }
{
    let _token = pop_token(stack)?;
    Ok(())
}

/// A statement that is `;` alone.
fn empty(stack: &mut Vec<Item>) -> Result<(), Stop>
    ensures { Leaves result (stack_of stack.new) (empty_deed (stack_of stack.old)) }
{
    let end = pop_token(stack)?;
    push(stack, Item::Code(CodeItem::Stmt(Stmt::Empty(end.place))))?;
    Ok(())
}

/// EXIT, CONTINUE, and any other word as RETURN.
#[tactic(auto, unfolding(pv_parse::specs::StmtDeeds::single_of))]
fn single_of(bytes: &[u8], place: Place) -> Stmt
    ensures { stmt_tree result ≡ single_of bytes.now place }
{
    if is_text(bytes, b"EXIT") {
        Stmt::Exit(place)
    } else if is_text(bytes, b"CONTINUE") {
        Stmt::Continue(place)
    } else {
        Stmt::Return(place)
    }
}

/// EXIT, CONTINUE or RETURN.
fn single(stack: &mut Vec<Item>) -> Result<(), Stop>
    ensures { Leaves result (stack_of stack.new) (single_deed (stack_of stack.old)) }
{
    let token = pop_token(stack)?;
    let single = single_of(token.bytes, token.place);
    push(stack, Item::Code(CodeItem::Stmt(single)))?;
    Ok(())
}

/// A call is a statement.
fn call(stack: &mut Vec<Item>) -> Result<(), Stop>
    ensures { Leaves result (stack_of stack.new) (call_statement_deed (stack_of stack.old)) }
{
    let call = pop_call(stack)?;
    push(stack, Item::Code(CodeItem::Stmt(Stmt::Call(call))))?;
    Ok(())
}

/// The assignment of this value to what the path leads to.
fn assigned(target: Operand, place: Place, value: Value) -> Stmt
    ensures { stmt_tree result ≡ assigned (operand_of (path_tree target)) place (value_tree value) }
{
    match value {
        Value::Expr(value) => Stmt::Assign {
            target,
            place,
            value,
        },
        Value::Call(call) => Stmt::AssignCall {
            target,
            place,
            call,
        },
    }
}

/// A value is assigned to what a path leads to.
fn assign(stack: &mut Vec<Item>) -> Result<(), Stop>
    ensures { Leaves result (stack_of stack.new) (assign_deed (stack_of stack.old)) }
{
    let value = pop_value(stack)?;
    let (value, sign) = with(value, pop_token(stack))?;
    let (value, target) = with(value, pop_path(stack))?;
    let stmt = assigned(target, sign.place, value);
    push(stack, Item::Code(CodeItem::Stmt(stmt)))?;
    Ok(())
}

/// A list without statements.
fn new_list(alloc: Global, stack: &mut Vec<Item>) -> Result<(), Stop>
    ensures { Leaves result (stack_of stack.new) (new_list_deed (stack_of stack.old)) }
{
    push(stack, Item::Code(CodeItem::Stmts(Vec::new(alloc))))?;
    Ok(())
}

/// A list has one more statement.
fn add(stack: &mut Vec<Item>) -> Result<(), Stop>
    ensures { Leaves result (stack_of stack.new) (add_deed (stack_of stack.old)) }
{
    let stmt = pop_stmt(stack)?;
    let (stmt, list) = with(stmt, pop_stmts(stack))?;
    let list = added(list, stmt)?;
    push(stack, Item::Code(CodeItem::Stmts(list)))?;
    Ok(())
}

/// A condition, THEN, and statements.
fn pop_arm(stack: &mut Vec<Item>) -> Result<(Expr, Vec<Stmt>), Stop>
    ensures { Pops arm_tree result (stack_of stack.new) (arm_on (stack_of stack.old)) }
{
    let body = pop_whole(stack)?;
    let (body, _word) = with(body, pop_token(stack))?;
    let (body, cond) = with(body, pop_expr(stack))?;
    Ok((cond, body))
}

/// The condition behind IF, with its statements.
fn first_arm(alloc: Global, stack: &mut Vec<Item>) -> Result<(), Stop>
    ensures { Leaves result (stack_of stack.new) (first_arm_deed (stack_of stack.old)) }
{
    let arm = pop_arm(stack)?;
    let arms = vec![in alloc; arm]?;
    push(stack, Item::Code(CodeItem::Arms(arms)))?;
    Ok(())
}

/// One behind ELSIF.
fn next_arm(stack: &mut Vec<Item>) -> Result<(), Stop>
    ensures { Leaves result (stack_of stack.new) (next_arm_deed (stack_of stack.old)) }
{
    let arm = pop_arm(stack)?;
    let (arm, _word) = with(arm, pop_token(stack))?;
    let (arm, arms) = with(arm, pop_arms(stack))?;
    let arms = added(arms, arm)?;
    push(stack, Item::Code(CodeItem::Arms(arms)))?;
    Ok(())
}

/// ELSE with its statements.
fn otherwise(alloc: Global, stack: &mut Vec<Item>) -> Result<(), Stop>
    ensures { Leaves result (stack_of stack.new) (else_deed (stack_of stack.old)) }
{
    let body = pop_whole(stack)?;
    let (body, _word) = with(body, pop_token(stack))?;
    let body = Box::new(alloc, body)?;
    push(stack, Item::Code(CodeItem::Else(Some(body))))?;
    Ok(())
}

/// No ELSE.
fn no_else(stack: &mut Vec<Item>) -> Result<(), Stop>
    ensures { Leaves result (stack_of stack.new) (no_else_deed (stack_of stack.old)) }
{
    push(stack, Item::Code(CodeItem::Else(None)))?;
    Ok(())
}

/// An IF.
fn branch_on(stack: &mut Vec<Item>) -> Result<(), Stop>
    ensures { Leaves result (stack_of stack.new) (if_deed (stack_of stack.old)) }
{
    let _end = pop_token(stack)?;
    let other = pop_else(stack)?;
    let (other, arms) = with(other, pop_arms(stack))?;
    let ((other, arms), word) = with((other, arms), pop_token(stack))?;
    let stmt = if_of(arms, other, word.place);
    push(stack, Item::Code(CodeItem::Stmt(stmt)))?;
    Ok(())
}

/// A literal is a value of a label.
fn literal_choice(alloc: Global, stack: &mut Vec<Item>) -> Result<(), Stop>
    ensures { Leaves result (stack_of stack.new) (literal_choice_deed (stack_of stack.old)) }
{
    let literal = pop_literal(stack)?;
    let choice = Box::new(alloc, Choice::Lit(literal))?;
    push(stack, Item::Code(CodeItem::Choice(choice)))?;
    Ok(())
}

/// A word is one: the name of a constant.
fn word_choice(alloc: Global, stack: &mut Vec<Item>) -> Result<(), Stop>
    ensures { Leaves result (stack_of stack.new) (word_choice_deed (stack_of stack.old)) }
{
    let word = pop_path(stack)?;
    let (name, place) = path_name(alloc, word)?;
    let choice = Box::new(alloc, Choice::Const(name, place))?;
    push(stack, Item::Code(CodeItem::Choice(choice)))?;
    Ok(())
}

/// The upper end of a range.
fn pop_upper(stack: &mut Vec<Item>) -> Result<Box<Choice>, Stop>
    ensures { Pops (λ choice. choice.value) result (stack_of stack.new) (upper_on (stack_of stack.old)) }
{
    let upper = pop_boxed_choice(stack)?;
    let (upper, _dots) = with(upper, pop_token(stack))?;
    Ok(upper)
}

/// A range begins a label.
fn first_range(alloc: Global, stack: &mut Vec<Item>) -> Result<(), Stop>
    ensures { Leaves result (stack_of stack.new) (first_range_deed (stack_of stack.old)) }
{
    let upper = pop_upper(stack)?;
    let (upper, lower) = with(upper, pop_choice(stack))?;
    let label = vec![in alloc; ChoiceRange::of(lower, Some(upper))]?;
    push(stack, Item::Code(CodeItem::Choices(label)))?;
    Ok(())
}

/// A single value begins one.
fn first_choice(alloc: Global, stack: &mut Vec<Item>) -> Result<(), Stop>
    ensures { Leaves result (stack_of stack.new) (first_choice_deed (stack_of stack.old)) }
{
    let choice = pop_choice(stack)?;
    let label = vec![in alloc; ChoiceRange::of(choice, None)]?;
    push(stack, Item::Code(CodeItem::Choices(label)))?;
    Ok(())
}

/// A label has a value more, behind its comma.
fn push_choice(upper: Option<Box<Choice>>, stack: &mut Vec<Item>) -> Result<(), Stop>
    ensures { Leaves result (stack_of stack.new) (added_choice (option_map (λ choice. choice.value) upper)
        (stack_of stack.old)) }
{
    let (upper, lower) = with(upper, pop_choice(stack))?;
    let ((lower, upper), _comma) = with((lower, upper), pop_token(stack))?;
    let ((lower, upper), label) = with((lower, upper), pop_choices(stack))?;
    let label = added(label, ChoiceRange::of(lower, upper))?;
    push(stack, Item::Code(CodeItem::Choices(label)))?;
    Ok(())
}

/// A label has a range more.
fn next_range(stack: &mut Vec<Item>) -> Result<(), Stop>
    ensures { Leaves result (stack_of stack.new) (next_range_deed (stack_of stack.old)) }
{
    let upper = pop_upper(stack)?;
    push_choice(Some(upper), stack)
}

/// A label has a single value more.
fn next_choice(stack: &mut Vec<Item>) -> Result<(), Stop>
    ensures { Leaves result (stack_of stack.new) (next_choice_deed (stack_of stack.old)) }
{
    push_choice(None, stack)
}

/// A CASE without branches.
fn new_branches(alloc: Global, stack: &mut Vec<Item>) -> Result<(), Stop>
    ensures { Leaves result (stack_of stack.new) (new_branches_deed (stack_of stack.old)) }
{
    push(stack, Item::Code(CodeItem::Branches(Vec::new(alloc))))?;
    Ok(())
}

/// A label behind the branches that are read, with no statement yet behind it.
fn open_branch(
    alloc: Global,
    label: Choices,
    branches: Vec<(Choices, Vec<Stmt>)>,
    stack: &mut Vec<Item>,
) -> Result<(), Stop>
    ensures { Leaves result (stack_of stack.new) (Some (opened (choice_list label)
        (branch_list branches) (stack_of stack.old))) }
{
    let pushed = push(stack, Item::Code(CodeItem::Branches(branches)));
    let (label, ()) = with(label, pushed)?;
    push(stack, Item::Code(CodeItem::Choices(label)))?;
    push(stack, Item::Code(CodeItem::Stmts(Vec::new(alloc))))?;
    Ok(())
}

/// A label begins the first branch.
fn label(alloc: Global, stack: &mut Vec<Item>) -> Result<(), Stop>
    ensures { Leaves result (stack_of stack.new) (label_deed (stack_of stack.old)) }
{
    let label = pop_label(stack)?;
    let (label, branches) = with(label, pop_branches(stack))?;
    open_branch(alloc, label, branches, stack)
}

/// The branch that is read, with those before it.
fn pop_closed(stack: &mut Vec<Item>) -> Result<Vec<(Choices, Vec<Stmt>)>, Stop>
    ensures { Pops branch_list result (stack_of stack.new) (closed_on (stack_of stack.old)) }
{
    let body = pop_whole(stack)?;
    let (body, label) = with(body, pop_choices(stack))?;
    let ((label, body), branches) = with((label, body), pop_branches(stack))?;
    let branches = added(branches, (label, body))?;
    Ok(branches)
}

/// A label begins the next branch.
fn next_label(alloc: Global, stack: &mut Vec<Item>) -> Result<(), Stop>
    ensures { Leaves result (stack_of stack.new) (next_label_deed (stack_of stack.old)) }
{
    let label = pop_label(stack)?;
    let (label, branches) = with(label, pop_closed(stack))?;
    open_branch(alloc, label, branches, stack)
}

/// All branches are read.
fn branches(stack: &mut Vec<Item>) -> Result<(), Stop>
    ensures { Leaves result (stack_of stack.new) (branches_deed (stack_of stack.old)) }
{
    let branches = pop_closed(stack)?;
    push(stack, Item::Code(CodeItem::Branches(branches)))?;
    Ok(())
}

/// A CASE.
fn case(alloc: Global, stack: &mut Vec<Item>) -> Result<(), Stop>
    ensures { Leaves result (stack_of stack.new) (case_deed (stack_of stack.old)) }
{
    let _end = pop_token(stack)?;
    let other = pop_else(stack)?;
    let (other, branches) = with(other, pop_branches(stack))?;
    let ((other, branches), _of) = with((other, branches), pop_token(stack))?;
    let ((other, branches), selector) = with((other, branches), pop_boxed(alloc, stack))?;
    let ((other, branches, selector), word) = with((other, branches, selector), pop_token(stack))?;
    let stmt = case_of(selector, branches, other, word.place);
    push(stack, Item::Code(CodeItem::Stmt(stmt)))?;
    Ok(())
}

/// BY with its literal.
fn by(alloc: Global, stack: &mut Vec<Item>) -> Result<(), Stop>
    ensures { Leaves result (stack_of stack.new) (by_deed (stack_of stack.old)) }
{
    let literal = pop_literal(stack)?;
    let _word = pop_token(stack)?;
    let literal = Box::new(alloc, literal)?;
    push(stack, Item::Code(CodeItem::By(Some(literal))))?;
    Ok(())
}

/// No BY.
fn no_by(stack: &mut Vec<Item>) -> Result<(), Stop>
    ensures { Leaves result (stack_of stack.new) (no_by_deed (stack_of stack.old)) }
{
    push(stack, Item::Code(CodeItem::By(None)))?;
    Ok(())
}

/// The statements between DO and the word that ends a loop.
fn pop_body(stack: &mut Vec<Item>) -> Result<Vec<Stmt>, Stop>
    ensures { Pops stmt_list result (stack_of stack.new) (body_on (stack_of stack.old)) }
{
    let _end = pop_token(stack)?;
    let body = pop_whole(stack)?;
    let (body, _word) = with(body, pop_token(stack))?;
    Ok(body)
}

/// A FOR.
fn count(alloc: Global, stack: &mut Vec<Item>) -> Result<(), Stop>
    ensures { Leaves result (stack_of stack.new) (for_deed (stack_of stack.old)) }
{
    let body = pop_body(stack)?;
    let (body, by) = with(body, pop_by(stack))?;
    let (body, last) = with(body, pop_expr(stack))?;
    let ((body, last), _to) = with((body, last), pop_token(stack))?;
    let ((body, last), first) = with((body, last), pop_expr(stack))?;
    let (parts, _sign) = with((body, last, first), pop_token(stack))?;
    let (parts, path) = with(parts, pop_path(stack))?;
    let ((parts, path), word) = with((parts, path), pop_token(stack))?;
    let ((body, last, first), (var, var_place)) = with(parts, path_name(alloc, path))?;
    let head = ForHead {
        var,
        var_place,
        first,
        last,
        by,
    };
    let (body, head) = with(body, Box::new(alloc, head))?;
    push(
        stack,
        Item::Code(CodeItem::Stmt(Stmt::For {
            head,
            body,
            place: word.place,
        })),
    )?;
    Ok(())
}

/// A WHILE.
fn repeat_while(alloc: Global, stack: &mut Vec<Item>) -> Result<(), Stop>
    ensures { Leaves result (stack_of stack.new) (while_deed (stack_of stack.old)) }
{
    let body = pop_body(stack)?;
    let (body, cond) = with(body, pop_boxed(alloc, stack))?;
    let ((body, cond), word) = with((body, cond), pop_token(stack))?;
    push(
        stack,
        Item::Code(CodeItem::Stmt(Stmt::While {
            cond,
            body,
            place: word.place,
        })),
    )?;
    Ok(())
}

/// A REPEAT.
fn repeat_until(alloc: Global, stack: &mut Vec<Item>) -> Result<(), Stop>
    ensures { Leaves result (stack_of stack.new) (repeat_deed (stack_of stack.old)) }
{
    let _end = pop_token(stack)?;
    let cond = pop_boxed(alloc, stack)?;
    let (cond, _until) = with(cond, pop_token(stack))?;
    let (cond, body) = with(cond, pop_whole(stack))?;
    let ((cond, body), word) = with((cond, body), pop_token(stack))?;
    push(
        stack,
        Item::Code(CodeItem::Stmt(Stmt::Repeat {
            body,
            cond,
            place: word.place,
        })),
    )?;
    Ok(())
}

/// What an alternative of statements does.
pub fn act_on_stmt(alloc: Global, action: StmtAction, stack: &mut Vec<Item>) -> Result<(), Stop>
    ensures { Leaves result (stack_of stack.new) (stmt_deed action (stack_of stack.old)) }
{
    match action {
        StmtAction::Drop => forget(stack),
        StmtAction::Empty => empty(stack),
        StmtAction::Single => single(stack),
        StmtAction::Call => call(stack),
        StmtAction::Assign => assign(stack),
        StmtAction::NewList => new_list(alloc, stack),
        StmtAction::Add => add(stack),
        StmtAction::FirstArm => first_arm(alloc, stack),
        StmtAction::NextArm => next_arm(stack),
        StmtAction::Else => otherwise(alloc, stack),
        StmtAction::NoElse => no_else(stack),
        StmtAction::If => branch_on(stack),
        StmtAction::LiteralChoice => literal_choice(alloc, stack),
        StmtAction::WordChoice => word_choice(alloc, stack),
        StmtAction::FirstRange => first_range(alloc, stack),
        StmtAction::FirstChoice => first_choice(alloc, stack),
        StmtAction::NextRange => next_range(stack),
        StmtAction::NextChoice => next_choice(stack),
        StmtAction::NewBranches => new_branches(alloc, stack),
        StmtAction::Label => label(alloc, stack),
        StmtAction::NextLabel => next_label(alloc, stack),
        StmtAction::Branches => branches(stack),
        StmtAction::Case => case(alloc, stack),
        StmtAction::By => by(alloc, stack),
        StmtAction::NoBy => no_by(stack),
        StmtAction::For => count(alloc, stack),
        StmtAction::While => repeat_while(alloc, stack),
        StmtAction::Repeat => repeat_until(alloc, stack),
    }
}
