//! Parts of calls, and parts that statements, instructions and declarations share, taken off the stack.
ghost use Rattle.std.specs.Prelude.{◌≡◌};
ghost use Rattle.pv_tree.specs.View.{body_tree, call_tree};
ghost use Rattle.pv_parse.specs.CodeItems.{code_of, arg_list};
ghost use Rattle.pv_parse.specs.CodeStack.{args_in, args_on, call_in, call_on};
ghost use Rattle.pv_parse.specs.DeclItems.{decl_of};
ghost use Rattle.pv_parse.specs.DeclStack.{words_in, words_on, body_in, body_on};
ghost use Rattle.pv_parse.specs.Items.{stack_of, item_of, literal_in, literal_on, code_in, code_on, decl_in, decl_on, Pops, Finds};

use pv_parse::{CodeItem, DeclItem, Item, Stop, mistyped, pop_item};
use pv_place::Place;
use pv_tree::{Arg, Body, CallTree};
use pv_types::{Literal, Name};

fn literal_in(item: Item) -> Result<Literal, Stop>
    ensures { Finds (λ literal. literal) result (literal_in (item_of item.entry)) }
{
    match item {
        Item::Literal(literal) => Ok(literal),
        other => Err(mistyped(other)),
    }
}

/// Takes a literal.
pub fn pop_literal<'a>(stack: &mut Vec<Item<'a>>) -> Result<Literal, Stop>
    ensures { Pops (λ literal. literal) result (stack_of stack.new) (literal_on (stack_of stack.old)) }
{
    let item = pop_item(stack)?;
    let found = literal_in(item)?;
    Ok(found)
}

/// A part of a statement or of a call is another than what was asked for. It is dropped here, so that no proof above has a case
/// for each part of it.
pub fn mistyped_code(part: CodeItem) -> Stop
    ensures { result ≡ Stop.Mistyped }
{
    drop(part);
    Stop::Mistyped
}

fn code_in(item: Item) -> Result<CodeItem, Stop>
    ensures { Finds code_of result (code_in (item_of item.entry)) }
{
    match item {
        Item::Code(item) => Ok(item),
        other => Err(mistyped(other)),
    }
}

/// Takes a part of a statement or of a call.
pub fn pop_code<'a>(stack: &mut Vec<Item<'a>>) -> Result<CodeItem, Stop>
    ensures { Pops code_of result (stack_of stack.new) (code_on (stack_of stack.old)) }
{
    let item = pop_item(stack)?;
    let found = code_in(item)?;
    Ok(found)
}

fn args_in(item: CodeItem) -> Result<Vec<Arg>, Stop>
    ensures { Finds arg_list result (args_in (code_of item)) }
{
    match item {
        CodeItem::Args(found) => Ok(found),
        other => Err(mistyped_code(other)),
    }
}

/// Takes the arguments of a call.
pub fn pop_args<'a>(stack: &mut Vec<Item<'a>>) -> Result<Vec<Arg>, Stop>
    ensures { Pops arg_list result (stack_of stack.new) (args_on (stack_of stack.old)) }
{
    let item = pop_code(stack)?;
    let found = args_in(item)?;
    Ok(found)
}

fn call_in(item: CodeItem) -> Result<Box<CallTree>, Stop>
    ensures { Finds (λ call. call_tree call.value) result (call_in (code_of item)) }
{
    match item {
        CodeItem::Call(found) => Ok(found),
        other => Err(mistyped_code(other)),
    }
}

/// Takes a call.
pub fn pop_call<'a>(stack: &mut Vec<Item<'a>>) -> Result<Box<CallTree>, Stop>
    ensures { Pops (λ call. call_tree call.value) result (stack_of stack.new) (call_on (stack_of stack.old)) }
{
    let item = pop_code(stack)?;
    let found = call_in(item)?;
    Ok(found)
}

/// A part of a declaration or of a block is another than what was asked for. It is dropped here, as above.
pub fn mistyped_decl(part: DeclItem) -> Stop
    ensures { result ≡ Stop.Mistyped }
{
    drop(part);
    Stop::Mistyped
}

fn decl_in(item: Item) -> Result<DeclItem, Stop>
    ensures { Finds decl_of result (decl_in (item_of item.entry)) }
{
    match item {
        Item::Decl(item) => Ok(item),
        other => Err(mistyped(other)),
    }
}

/// Takes a part of a declaration or of a block.
pub fn pop_decl(stack: &mut Vec<Item>) -> Result<DeclItem, Stop>
    ensures { Pops decl_of result (stack_of stack.new) (decl_on (stack_of stack.old)) }
{
    let item = pop_item(stack)?;
    let found = decl_in(item)?;
    Ok(found)
}

fn words_in(item: DeclItem) -> Result<Vec<(Name, Place)>, Stop>
    ensures { Finds (λ words. words.items) result (words_in (decl_of item)) }
{
    match item {
        DeclItem::Words(found) => Ok(found),
        other => Err(mistyped_decl(other)),
    }
}

/// Takes the words of a declaration, or the label of an instruction.
pub fn pop_words(stack: &mut Vec<Item>) -> Result<Vec<(Name, Place)>, Stop>
    ensures { Pops (λ words. words.items) result (stack_of stack.new) (words_on (stack_of stack.old)) }
{
    let item = pop_decl(stack)?;
    let found = words_in(item)?;
    Ok(found)
}

fn body_in(item: DeclItem) -> Result<Body, Stop>
    ensures { Finds body_tree result (body_in (decl_of item)) }
{
    match item {
        DeclItem::Body(found) => Ok(found),
        other => Err(mistyped_decl(other)),
    }
}

/// Takes the body of a block with code.
pub fn pop_body(stack: &mut Vec<Item>) -> Result<Body, Stop>
    ensures { Pops body_tree result (stack_of stack.new) (body_on (stack_of stack.old)) }
{
    let item = pop_decl(stack)?;
    let found = body_in(item)?;
    Ok(found)
}
