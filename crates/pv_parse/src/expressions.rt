//! What alternatives of expressions and operands make of what lies on the stack.
ghost use Rattle.std.specs.Prelude.{◌≡◌, ◌∷◌, ◌++◌, [], Some, None, IfOk, map, option_and_then};
ghost use Rattle.pv_tree.specs.declared.expr.Root.TheVariants.{Named};
ghost use Rattle.pv_tree.specs.View.{expr_tree, exprs_of, step_tree};
ghost use Rattle.pv_tree.specs.Words.{pair_name};
ghost use Rattle.pv_parse.specs.Items.{stack_of, lexeme_of_slice, path, path_tree, expr, expr_on, word_of, Leaves, Pops, Finds};
ghost use Rattle.pv_parse.specs.DeclStack.{word_on};
ghost use Rattle.pv_parse.specs.ExprDeeds.{rooted, stepped, hashed, function_expr, word_deed, quoted_deed, numbered_deed, pair_deed, area_deed, field_deed, index_deed, read_deed, hash_read_deed, number_deed, truth_deed, paren_deed, unary_deed, link_deed, one_deed, two_deed, three_deed, argument_on, later_on, opening_on, expr_deed};
ghost use Rattle.pv_parse.specs.TokenTexts.{times_of, compare_of};

use crate::action::ExprAction;
use crate::held::{added, with};
use crate::item::{Item, Sliced};
use crate::numbers::{area_of, number_type};
use crate::stack::{Stop, pop_expr, pop_path, pop_token, push, word_in};
use crate::texts::{compare_of, function_of, times_of, truth_of};
use pv_lex::token_value;
use pv_place::Place;
use pv_tree::{BinaryOp, Expr, Operand, Root, Step, UnaryOp};
use pv_types::Name;
use pv_word::Ty;
use std::alloc::{AllocError, Global};

/// Puts an operand without steps on the stack.
pub fn push_root(alloc: Global, root: Root, place: Place, stack: &mut Vec<Item>) -> Result<(), Stop>
    ensures { Leaves result (stack_of stack.new) (Some (path (rooted root place) ∷ stack_of stack.old)) }
{
    let root = Box::new(alloc, root)?;
    push(
        stack,
        Item::Path(Operand {
            root,
            steps: Vec::new(alloc),
            place,
        }),
    )?;
    Ok(())
}

/// A word is an operand without steps.
pub fn word(alloc: Global, stack: &mut Vec<Item>) -> Result<(), Stop>
    ensures { Leaves result (stack_of stack.new) (word_deed (stack_of stack.old)) }
{
    let token = pop_token(stack)?;
    let name = Name::plain(alloc, token.bytes)?;
    let root = Root::Local {
        name,
        hash: false,
        place: token.place,
    };
    push_root(alloc, root, token.place, stack)
}

/// A quoted name is one.
pub fn quoted(alloc: Global, stack: &mut Vec<Item>) -> Result<(), Stop>
    ensures { Leaves result (stack_of stack.new) (quoted_deed (stack_of stack.old)) }
{
    let token = pop_token(stack)?;
    let name = Name::quoted(alloc, token.bytes)?;
    push_named(alloc, name, token.place, stack)
}

/// A numbered name in one word is one.
pub fn numbered(alloc: Global, stack: &mut Vec<Item>) -> Result<(), Stop>
    ensures { Leaves result (stack_of stack.new) (numbered_deed (stack_of stack.old)) }
{
    let token = pop_token(stack)?;
    let name = Name::plain(alloc, token.bytes)?;
    push_named(alloc, name, token.place, stack)
}

/// One in two tokens is one, written without what stands between them.
pub fn numbered_pair(alloc: Global, stack: &mut Vec<Item>) -> Result<(), Stop>
    ensures { Leaves result (stack_of stack.new) (pair_deed (stack_of stack.old)) }
{
    let number = pop_token(stack)?;
    let prefix = pop_token(stack)?;
    let name = joined_name(alloc, prefix.bytes, number.bytes)?;
    push_named(alloc, name, prefix.place, stack)
}

/// The numbered name of two words.
pub fn joined_name(alloc: Global, front: &[u8], back: &[u8]) -> Result<Name, AllocError>
    ensures { IfOk result (λ name. name ≡ pair_name (front.now ++ back.now)) }
{
    let mut text = Vec::from_slice(alloc, front)?;
    text.extend_from_slice(back)?;
    Name::pair(alloc, &text)
}

/// A name that isn't a word is an operand without steps.
fn push_named(alloc: Global, name: Name, place: Place, stack: &mut Vec<Item>) -> Result<(), Stop>
    ensures { Leaves result (stack_of stack.new) (Some
        (path (rooted (Named name) place) ∷ stack_of stack.old)) }
{
    push_root(alloc, Root::Named(name), place, stack)
}

/// An address is one.
pub fn area(alloc: Global, stack: &mut Vec<Item>) -> Result<(), Stop>
    ensures { Leaves result (stack_of stack.new) (area_deed (stack_of stack.old)) }
{
    let token = pop_token(stack)?;
    let root = area_of(token.bytes);
    push_root(alloc, root, token.place, stack)
}

/// The name and the place of the word that a path is.
fn word_of(path: Operand) -> Result<(Name, Place), Stop>
    ensures { Finds (λ word. word) result (word_of (path_tree path).root) }
{
    drop(path.steps);
    word_in(Box::into_inner(path.root))
}

/// Takes a word that was read as an operand without steps.
pub fn pop_word(stack: &mut Vec<Item>) -> Result<(Name, Place), Stop>
    ensures { Pops (λ word. word) result (stack_of stack.new) (word_on (stack_of stack.old)) }
{
    let path = pop_path(stack)?;
    let word = word_of(path)?;
    Ok(word)
}

/// Puts a path with one more step on the stack.
pub fn push_step(from: Operand, step: Step, stack: &mut Vec<Item>) -> Result<(), Stop>
    ensures { Leaves result (stack_of stack.new) (Some
        (path (stepped (path_tree from) (step_tree step)) ∷ stack_of stack.old)) }
{
    let steps = added(from.steps, step);
    let (root, steps) = with(from.root, steps)?;
    push(
        stack,
        Item::Path(Operand {
            root,
            steps,
            place: from.place,
        }),
    )?;
    Ok(())
}

/// A step to a field, whose word was read behind its dot.
pub fn field(stack: &mut Vec<Item>) -> Result<(), Stop>
    ensures { Leaves result (stack_of stack.new) (field_deed (stack_of stack.old)) }
{
    let field = pop_path(stack)?;
    let word = word_of(field)?;
    let (word, _dot) = with(word, pop_token(stack))?;
    let (word, path) = with(word, pop_path(stack))?;
    push_step(path, Step::Field(word.0, word.1), stack)
}

/// Takes an expression into a box.
pub fn pop_boxed(alloc: Global, stack: &mut Vec<Item>) -> Result<Box<Expr>, Stop>
    ensures { Pops (λ inner. expr_tree inner.value) result (stack_of stack.new) (expr_on (stack_of stack.old)) }
{
    let inner = pop_expr(stack)?;
    let inner = Box::new(alloc, inner)?;
    Ok(inner)
}

/// A step to the element at an index.
pub fn index(alloc: Global, stack: &mut Vec<Item>) -> Result<(), Stop>
    ensures { Leaves result (stack_of stack.new) (index_deed (stack_of stack.old)) }
{
    let _end = pop_token(stack)?;
    let at = pop_boxed(alloc, stack)?;
    let (at, begin) = with(at, pop_token(stack))?;
    let (at, path) = with(at, pop_path(stack))?;
    push_step(path, Step::Index(at, begin.place), stack)
}

/// What a path leads to is read.
pub fn read(stack: &mut Vec<Item>) -> Result<(), Stop>
    ensures { Leaves result (stack_of stack.new) (read_deed (stack_of stack.old)) }
{
    let path = pop_path(stack)?;
    push(stack, Item::Expr(Expr::Read(path)))?;
    Ok(())
}

/// The path that is the word's behind `#`, which stands at this place.
fn hashed(alloc: Global, path: Operand, place: Place) -> Result<Operand, Stop>
    ensures { Finds path_tree result (hashed (path_tree path) place) }
{
    let (steps, (name, at)) = with(path.steps, word_in(Box::into_inner(path.root)))?;
    let root = Root::Local {
        name,
        hash: true,
        place: at,
    };
    let (steps, root) = with(steps, Box::new(alloc, root))?;
    Ok(Operand { root, steps, place })
}

/// What a path behind `#` leads to is read.
pub fn hash_read(alloc: Global, stack: &mut Vec<Item>) -> Result<(), Stop>
    ensures { Leaves result (stack_of stack.new) (hash_read_deed (stack_of stack.old)) }
{
    let path = pop_path(stack)?;
    let (path, hash) = with(path, pop_token(stack))?;
    let path = hashed(alloc, path, hash.place)?;
    push(stack, Item::Expr(Expr::Read(path)))?;
    Ok(())
}

/// A number is a literal.
pub fn number(stack: &mut Vec<Item>) -> Result<(), Stop>
    ensures { Leaves result (stack_of stack.new) (number_deed (stack_of stack.old)) }
{
    let token = pop_token(stack)?;
    let ty = number_type(token.bytes);
    push(
        stack,
        Item::Expr(Expr::Lit {
            ty,
            value: token_value(token.kind, token.bytes),
            place: token.place,
        }),
    )?;
    Ok(())
}

/// TRUE or FALSE is a literal.
pub fn truth(stack: &mut Vec<Item>) -> Result<(), Stop>
    ensures { Leaves result (stack_of stack.new) (truth_deed (stack_of stack.old)) }
{
    let token = pop_token(stack)?;
    let value = truth_of(token.bytes);
    push(
        stack,
        Item::Expr(Expr::Lit {
            ty: Some(Ty::Bool),
            value,
            place: token.place,
        }),
    )?;
    Ok(())
}

/// An expression stands in parentheses.
pub fn paren(alloc: Global, stack: &mut Vec<Item>) -> Result<(), Stop>
    ensures { Leaves result (stack_of stack.new) (paren_deed (stack_of stack.old)) }
{
    let _end = pop_token(stack)?;
    let inner = pop_boxed(alloc, stack)?;
    let (inner, begin) = with(inner, pop_token(stack))?;
    push(stack, Item::Expr(Expr::Paren(begin.place, inner)))?;
    Ok(())
}

/// An operator before its operand.
pub fn unary(alloc: Global, op: UnaryOp, stack: &mut Vec<Item>) -> Result<(), Stop>
    ensures { Leaves result (stack_of stack.new) (unary_deed op (stack_of stack.old)) }
{
    let arg = pop_boxed(alloc, stack)?;
    let (arg, token) = with(arg, pop_token(stack))?;
    push(
        stack,
        Item::Expr(Expr::Unary {
            op,
            place: token.place,
            arg,
        }),
    )?;
    Ok(())
}

/// An operator between two operands.
pub fn link(alloc: Global, op: BinaryOp, stack: &mut Vec<Item>) -> Result<(), Stop>
    ensures { Leaves result (stack_of stack.new) (link_deed (λ t. op) (stack_of stack.old)) }
{
    let right = pop_boxed(alloc, stack)?;
    let (right, token) = with(right, pop_token(stack))?;
    let (right, left) = with(right, pop_boxed(alloc, stack))?;
    push(
        stack,
        Item::Expr(Expr::Binary {
            op,
            place: token.place,
            left,
            right,
        }),
    )?;
    Ok(())
}

/// `*`, `/` or DIV stands between two operands.
pub fn times(alloc: Global, stack: &mut Vec<Item>) -> Result<(), Stop>
    ensures { Leaves result (stack_of stack.new) (link_deed (λ t. times_of t.bytes)
        (stack_of stack.old)) }
{
    let right = pop_boxed(alloc, stack)?;
    let (right, token) = with(right, pop_token(stack))?;
    let (right, left) = with(right, pop_boxed(alloc, stack))?;
    let op = times_of(token.bytes);
    push(
        stack,
        Item::Expr(Expr::Binary {
            op,
            place: token.place,
            left,
            right,
        }),
    )?;
    Ok(())
}

/// `<`, `>`, `<=` or `>=` stands between two operands.
pub fn compare(alloc: Global, stack: &mut Vec<Item>) -> Result<(), Stop>
    ensures { Leaves result (stack_of stack.new) (link_deed (λ t. compare_of t.bytes)
        (stack_of stack.old)) }
{
    let right = pop_boxed(alloc, stack)?;
    let (right, token) = with(right, pop_token(stack))?;
    let (right, left) = with(right, pop_boxed(alloc, stack))?;
    let op = compare_of(token.bytes);
    push(
        stack,
        Item::Expr(Expr::Binary {
            op,
            place: token.place,
            left,
            right,
        }),
    )?;
    Ok(())
}

/// The word of a function, and `(`.
fn pop_opening<'a>(stack: &mut Vec<Item<'a>>) -> Result<Sliced<'a>, Stop>
    ensures { Pops lexeme_of_slice result (stack_of stack.new) (opening_on (stack_of stack.old)) }
{
    let _begin = pop_token(stack)?;
    pop_token(stack)
}

/// An argument with its word and `:=`.
fn pop_argument(stack: &mut Vec<Item>) -> Result<Expr, Stop>
    ensures { Pops expr_tree result (stack_of stack.new) (argument_on (stack_of stack.old)) }
{
    let value = pop_expr(stack)?;
    let (value, _sign) = with(value, pop_token(stack))?;
    let (value, _word) = with(value, pop_token(stack))?;
    Ok(value)
}

/// One behind a comma.
fn pop_later(stack: &mut Vec<Item>) -> Result<Expr, Stop>
    ensures { Pops expr_tree result (stack_of stack.new) (later_on (stack_of stack.old)) }
{
    let value = pop_argument(stack)?;
    let (value, _comma) = with(value, pop_token(stack))?;
    Ok(value)
}

/// A function of its arguments, which lie on the stack behind its word and `(`.
fn push_function(args: Vec<Expr>, stack: &mut Vec<Item>) -> Result<(), Stop>
    ensures { Leaves result (stack_of stack.new) (option_and_then (λ f. Some
        (expr (function_expr f.0 (exprs_of (map expr_tree args.items))) ∷ f.1))
        (opening_on (stack_of stack.old))) }
{
    let (args, word) = with(args, pop_opening(stack))?;
    let function = function_of(word.bytes);
    push(
        stack,
        Item::Expr(Expr::Std {
            function,
            place: word.place,
            args,
        }),
    )?;
    Ok(())
}

/// A function of one argument.
pub fn one(alloc: Global, stack: &mut Vec<Item>) -> Result<(), Stop>
    ensures { Leaves result (stack_of stack.new) (one_deed (stack_of stack.old)) }
{
    let _end = pop_token(stack)?;
    let value = pop_expr(stack)?;
    let args = vec![in alloc; value]?;
    push_function(args, stack)
}

/// A function of two arguments.
pub fn two(alloc: Global, stack: &mut Vec<Item>) -> Result<(), Stop>
    ensures { Leaves result (stack_of stack.new) (two_deed (stack_of stack.old)) }
{
    let _end = pop_token(stack)?;
    let second = pop_later(stack)?;
    let (second, first) = with(second, pop_argument(stack))?;
    let args = vec![in alloc; first, second]?;
    push_function(args, stack)
}

/// A function of three arguments.
pub fn three(alloc: Global, stack: &mut Vec<Item>) -> Result<(), Stop>
    ensures { Leaves result (stack_of stack.new) (three_deed (stack_of stack.old)) }
{
    let _end = pop_token(stack)?;
    let third = pop_later(stack)?;
    let (third, second) = with(third, pop_later(stack))?;
    let (later, first) = with((second, third), pop_argument(stack))?;
    let args = vec![in alloc; first, later.0, later.1]?;
    push_function(args, stack)
}

/// What an alternative of expressions and operands does.
pub fn act_on_expr(alloc: Global, action: ExprAction, stack: &mut Vec<Item>) -> Result<(), Stop>
    ensures { Leaves result (stack_of stack.new) (expr_deed action (stack_of stack.old)) }
{
    match action {
        ExprAction::Word => word(alloc, stack),
        ExprAction::Quoted => quoted(alloc, stack),
        ExprAction::Numbered => numbered(alloc, stack),
        ExprAction::NumberedPair => numbered_pair(alloc, stack),
        ExprAction::Area => area(alloc, stack),
        ExprAction::Field => field(stack),
        ExprAction::Index => index(alloc, stack),
        ExprAction::Read => read(stack),
        ExprAction::HashRead => hash_read(alloc, stack),
        ExprAction::Number => number(stack),
        ExprAction::Truth => truth(stack),
        ExprAction::Paren => paren(alloc, stack),
        ExprAction::Unary(op) => unary(alloc, op, stack),
        ExprAction::Binary(op) => link(alloc, op, stack),
        ExprAction::Times => times(alloc, stack),
        ExprAction::Compare => compare(alloc, stack),
        ExprAction::One => one(alloc, stack),
        ExprAction::Two => two(alloc, stack),
        ExprAction::Three => three(alloc, stack),
    }
}
