//! The stack on which a tree is built, its top last.
ghost use Rattle.std.specs.Prelude.{◌≡◌, ◌∷◌, Some, None, OnOk, List};
ghost use Rattle.pv_tree.specs.View.{expr_tree};
ghost use Rattle.pv_parse.specs.Items.{stack_of, item_of, lexeme_of_slice, path_tree, top_on, token_in, token_on, path_in, path_on, expr_in, expr_on, word_of, Pops, Finds};

use crate::item::{Item, Sliced};
use pv_place::Place;
use pv_tree::{Expr, Operand, Root};
use pv_types::Name;
use std::alloc::{AllocError, AllocFailed};
use thiserror::Error;

/// Why an action stops.
#[derive(Clone, Copy, PartialEq, Eq, Debug, Drop, Error)]
pub enum Stop {
    /// What lies on the stack isn't what the action takes.
    #[error("the stack has nothing that the action takes")]
    Mistyped,
    /// There is no memory.
    #[error("there is no memory")]
    NoMemory,
}

impl From<AllocError> for Stop {
    ghost use Rattle.std.specs.Prelude.{◌≡◌};
    ghost use Rattle.pv_parse.specs.declared.stack.Stop.TheVariants.{NoMemory};

    ghost from_gives = { λ _ e. e ≡ NoMemory };

    fn from(_e: AllocError) -> Stop {
        Stop::NoMemory
    }
}

impl<T: Drop> From<AllocFailed<T>> for Stop {
    ghost use Rattle.std.specs.Prelude.{◌≡◌};
    ghost use Rattle.pv_parse.specs.declared.stack.Stop.TheVariants.{NoMemory};

    ghost from_gives = { λ _ e. e ≡ NoMemory };

    fn from(_e: AllocFailed<T>) -> Stop {
        Stop::NoMemory
    }
}

/// Puts an item on the stack.
pub fn push<'a>(stack: &mut Vec<Item<'a>>, item: Item<'a>) -> Result<(), AllocError>
    ensures { OnOk result (stack_of stack.new ≡ item_of item.entry ∷ stack_of stack.old) }
{
    stack.push(item)?;
    Ok(())
}

/// Takes the item on top.
pub fn pop_item<'a>(stack: &mut Vec<Item<'a>>) -> Result<Item<'a>, Stop>
    ensures { Pops item_of result (stack_of stack.new) (top_on (stack_of stack.old)) }
{
    match stack.pop() {
        Some(item) => Ok(item),
        None => Err(Stop::Mistyped),
    }
}

/// An item is another than what was asked for. It is dropped here, so that no proof above has a case for each part of it.
pub fn mistyped(item: Item) -> Stop
    ensures { result ≡ Stop.Mistyped }
{
    drop(item);
    Stop::Mistyped
}

fn token_in<'a>(item: Item<'a>) -> Result<Sliced<'a>, Stop>
    ensures { Finds lexeme_of_slice result (token_in (item_of item.entry)) }
{
    match item {
        Item::Token(token) => Ok(token),
        other => Err(mistyped(other)),
    }
}

/// Takes a token.
pub fn pop_token<'a>(stack: &mut Vec<Item<'a>>) -> Result<Sliced<'a>, Stop>
    ensures { Pops lexeme_of_slice result (stack_of stack.new) (token_on (stack_of stack.old)) }
{
    let item = pop_item(stack)?;
    let found = token_in(item)?;
    Ok(found)
}

fn path_in(item: Item) -> Result<Operand, Stop>
    ensures { Finds path_tree result (path_in (item_of item.entry)) }
{
    match item {
        Item::Path(path) => Ok(path),
        other => Err(mistyped(other)),
    }
}

/// Takes a path.
pub fn pop_path<'a>(stack: &mut Vec<Item<'a>>) -> Result<Operand, Stop>
    ensures { Pops path_tree result (stack_of stack.new) (path_on (stack_of stack.old)) }
{
    let item = pop_item(stack)?;
    let found = path_in(item)?;
    Ok(found)
}

fn expr_in(item: Item) -> Result<Expr, Stop>
    ensures { Finds expr_tree result (expr_in (item_of item.entry)) }
{
    match item {
        Item::Expr(expr) => Ok(expr),
        other => Err(mistyped(other)),
    }
}

/// Takes an expression.
pub fn pop_expr<'a>(stack: &mut Vec<Item<'a>>) -> Result<Expr, Stop>
    ensures { Pops expr_tree result (stack_of stack.new) (expr_on (stack_of stack.old)) }
{
    let item = pop_item(stack)?;
    let found = expr_in(item)?;
    Ok(found)
}

/// The name and the place of a word.
pub fn word_in(root: Root) -> Result<(Name, Place), Stop>
    ensures { Finds (λ word. word) result (word_of root) }
{
    match root {
        Root::Local { name, place, .. } => Ok((name, place)),
        _ => Err(Stop::Mistyped),
    }
}
