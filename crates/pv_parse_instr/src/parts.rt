//! Parts of instructions, taken off the stack: the instructions so far are the body of a block, and a label is a list of at most
//! one word.
ghost use Rattle.std.specs.Prelude.{◌≡◌, IfOk, OnOk, ◌∷◌, [], map, option_map};
ghost use Rattle.pv_tree.specs.Tree.{stl};
ghost use Rattle.pv_tree.specs.View.{body_tree, instr_tree};
ghost use Rattle.pv_parse.specs.Items.{stack_of, body, Pops};
ghost use Rattle.pv_parse.specs.InstrStack.{instrs_of, instrs_on, last_word, front_on};
ghost use Rattle.pv_parse_instr.specs.Fronts.{front_tree};

use pv_parse::{DeclItem, Item, Sliced, Stop, pop_token, push, with};
use pv_parse_call::{pop_body, pop_words};
use pv_place::Place;
use pv_tree::{Body, Instr};
use pv_types::Name;
use std::alloc::{AllocError, Global};

/// What stands before an instruction's operand: its word or sign, its label, and the instructions before it.
#[derive(Drop)]
pub struct Front<'a> {
    pub token: Sliced<'a>,
    pub label: Option<Box<(Name, Place)>>,
    pub list: Vec<Instr>,
}

/// The body of a block of another language has no instruction. It is dropped here.
fn no_instrs(alloc: Global, body: Body) -> Vec<Instr>
    ensures { map instr_tree result.items ≡ [] }
{
    drop(body);
    Vec::new(alloc)
}

/// The instructions of a body; one of another language has none, and never lies where they are taken.
fn instrs_in(alloc: Global, body: Body) -> Vec<Instr>
    ensures { map instr_tree result.items ≡ instrs_of (body_tree body) }
{
    match body {
        Body::Stl(list) => list,
        other => no_instrs(alloc, other),
    }
}

/// Takes the instructions so far.
pub fn pop_instrs(alloc: Global, stack: &mut Vec<Item>) -> Result<Vec<Instr>, Stop>
    ensures { Pops (λ list. map instr_tree list.items) result (stack_of stack.new) (instrs_on (stack_of stack.old)) }
{
    let body = pop_body(stack)?;
    Ok(instrs_in(alloc, body))
}

/// The last of some words.
fn last_word(words: Vec<(Name, Place)>) -> Option<(Name, Place)>
    ensures { result ≡ last_word words.items }
{
    let mut words = words;
    words.pop()
}

/// A label in a box, where there is one.
fn boxed(
    alloc: Global,
    label: Option<(Name, Place)>,
) -> Result<Option<Box<(Name, Place)>>, AllocError>
    ensures { IfOk result (λ held. option_map (λ l. l.value) held ≡ label) }
{
    match label {
        Some(label) => Ok(Some(Box::new(alloc, label)?)),
        None => Ok(None),
    }
}

/// Takes what stands before an instruction's operand.
pub fn pop_front<'a>(alloc: Global, stack: &mut Vec<Item<'a>>) -> Result<Front<'a>, Stop>
    ensures { Pops front_tree result (stack_of stack.new) (front_on (stack_of stack.old)) }
{
    let token = pop_token(stack)?;
    let words = pop_words(stack)?;
    let (words, list) = with(words, pop_instrs(alloc, stack))?;
    let (list, label) = with(list, boxed(alloc, last_word(words)))?;
    Ok(Front { token, label, list })
}

/// Puts the instructions so far on the stack.
pub fn put_instrs(stack: &mut Vec<Item>, list: Vec<Instr>) -> Result<(), AllocError>
    ensures { OnOk result (stack_of stack.new ≡ body (stl (map instr_tree list.items)) ∷ stack_of stack.old) }
{
    push(stack, Item::Decl(DeclItem::Body(Body::Stl(list))))
}
