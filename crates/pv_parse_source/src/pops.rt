//! What is taken off the stack while declarations and blocks are made.
ghost use Rattle.std.specs.Prelude.{OnOk, ◌≡◌, ◌∷◌, map};
ghost use Rattle.pv_types.specs.View.{type_tree};
ghost use Rattle.pv_tree.specs.View.{start_tree, block_trees};
ghost use Rattle.pv_parse.specs.DeclItems.{decl_of, fields_tree, bounds_tree, head_tree};
ghost use Rattle.pv_parse.specs.Items.{stack_of, decl, typed, Pops, Finds};
ghost use Rattle.pv_parse.specs.DeclStack.{name_in, name_on, around_in, around_on, fields_in, fields_on, typed_in, typed_on, start_in, start_on, bounds_in, bounds_on, heading_in, heading_on, values_in, values_on, blocks_in, blocks_on};

use pv_parse::{Bounds, DeclItem, Fields, Heading, Item, Stop, push};
use pv_parse_call::{mistyped_decl, pop_decl};
use pv_place::Place;
use pv_tree::{Block, Operand};
use pv_types::{DeclType, Literal, Name, Section};
use std::alloc::{AllocError, Global};

/// Puts a part of a declaration or of a block on the stack.
pub fn put<'a>(stack: &mut Vec<Item<'a>>, item: DeclItem) -> Result<(), AllocError>
    ensures { OnOk result (stack_of stack.new ≡ decl (decl_of item) ∷ stack_of stack.old) }
{
    push(stack, Item::Decl(item))
}

/// Puts a type on the stack, in a box.
pub fn put_typed<'a>(
    alloc: Global,
    stack: &mut Vec<Item<'a>>,
    ty: DeclType,
) -> Result<(), AllocError>
    ensures { OnOk result (stack_of stack.new ≡ typed (type_tree ty) ∷ stack_of stack.old) }
{
    let ty = Box::new(alloc, ty)?;
    put(stack, DeclItem::Typed(ty))
}

fn name_in(item: DeclItem) -> Result<(Name, Place), Stop>
    ensures { Finds (λ named. named) result (name_in (decl_of item)) }
{
    match item {
        DeclItem::Name(name, place) => Ok((name, place)),
        other => Err(mistyped_decl(other)),
    }
}

/// Takes a name.
pub fn pop_name(stack: &mut Vec<Item>) -> Result<(Name, Place), Stop>
    ensures { Pops (λ named. named) result (stack_of stack.new) (name_on (stack_of stack.old)) }
{
    let item = pop_decl(stack)?;
    let found = name_in(item)?;
    Ok(found)
}

fn around_in(item: DeclItem) -> Result<Section, Stop>
    ensures { Finds (λ around. around) result (around_in (decl_of item)) }
{
    match item {
        DeclItem::Around(found) => Ok(found),
        other => Err(mistyped_decl(other)),
    }
}

/// Takes the section that a type stands in.
pub fn pop_around(stack: &mut Vec<Item>) -> Result<Section, Stop>
    ensures { Pops (λ around. around) result (stack_of stack.new) (around_on (stack_of stack.old)) }
{
    let item = pop_decl(stack)?;
    let found = around_in(item)?;
    Ok(found)
}

fn fields_in(item: DeclItem) -> Result<Fields, Stop>
    ensures { Finds fields_tree result (fields_in (decl_of item)) }
{
    match item {
        DeclItem::Fields(found) => Ok(found),
        other => Err(mistyped_decl(other)),
    }
}

/// Takes the variables of a section or a structure.
pub fn pop_fields(stack: &mut Vec<Item>) -> Result<Fields, Stop>
    ensures { Pops fields_tree result (stack_of stack.new) (fields_on (stack_of stack.old)) }
{
    let item = pop_decl(stack)?;
    let found = fields_in(item)?;
    Ok(found)
}

fn typed_in(item: DeclItem) -> Result<Box<DeclType>, Stop>
    ensures { Finds (λ ty. type_tree ty.value) result (typed_in (decl_of item)) }
{
    match item {
        DeclItem::Typed(found) => Ok(found),
        other => Err(mistyped_decl(other)),
    }
}

/// Takes a type, in its box.
pub fn pop_typed(stack: &mut Vec<Item>) -> Result<Box<DeclType>, Stop>
    ensures { Pops (λ ty. type_tree ty.value) result (stack_of stack.new) (typed_on (stack_of stack.old)) }
{
    let item = pop_decl(stack)?;
    let found = typed_in(item)?;
    Ok(found)
}

fn start_in(item: DeclItem) -> Result<Option<Literal>, Stop>
    ensures { Finds (λ start. start) result (start_in (decl_of item)) }
{
    match item {
        DeclItem::Start(found) => Ok(found),
        other => Err(mistyped_decl(other)),
    }
}

/// Takes a start value, where one is written.
pub fn pop_start(stack: &mut Vec<Item>) -> Result<Option<Literal>, Stop>
    ensures { Pops (λ start. start) result (stack_of stack.new) (start_on (stack_of stack.old)) }
{
    let item = pop_decl(stack)?;
    let found = start_in(item)?;
    Ok(found)
}

fn bounds_in(item: DeclItem) -> Result<Bounds, Stop>
    ensures { Finds bounds_tree result (bounds_in (decl_of item)) }
{
    match item {
        DeclItem::Bounds(found) => Ok(found),
        other => Err(mistyped_decl(other)),
    }
}

/// Takes the bounds of an array.
pub fn pop_bounds(stack: &mut Vec<Item>) -> Result<Bounds, Stop>
    ensures { Pops bounds_tree result (stack_of stack.new) (bounds_on (stack_of stack.old)) }
{
    let item = pop_decl(stack)?;
    let found = bounds_in(item)?;
    Ok(found)
}

fn heading_in(item: DeclItem) -> Result<Box<Heading>, Stop>
    ensures { Finds (λ heading. head_tree heading.value) result (heading_in (decl_of item)) }
{
    match item {
        DeclItem::Heading(found) => Ok(found),
        other => Err(mistyped_decl(other)),
    }
}

/// Takes a block before its body, in its box.
pub fn pop_heading(stack: &mut Vec<Item>) -> Result<Box<Heading>, Stop>
    ensures { Pops (λ heading. head_tree heading.value) result (stack_of stack.new) (heading_on (stack_of stack.old)) }
{
    let item = pop_decl(stack)?;
    let found = heading_in(item)?;
    Ok(found)
}

fn values_in(item: DeclItem) -> Result<Vec<(Operand, Literal)>, Stop>
    ensures { Finds (λ values. map start_tree values.items) result (values_in (decl_of item)) }
{
    match item {
        DeclItem::Values(found) => Ok(found),
        other => Err(mistyped_decl(other)),
    }
}

/// Takes the values of a data block.
pub fn pop_values(stack: &mut Vec<Item>) -> Result<Vec<(Operand, Literal)>, Stop>
    ensures { Pops (λ values. map start_tree values.items) result (stack_of stack.new) (values_on (stack_of stack.old)) }
{
    let item = pop_decl(stack)?;
    let found = values_in(item)?;
    Ok(found)
}

fn blocks_in(item: DeclItem) -> Result<Vec<Block>, Stop>
    ensures { Finds (λ blocks. block_trees blocks.items) result (blocks_in (decl_of item)) }
{
    match item {
        DeclItem::Blocks(found) => Ok(found),
        other => Err(mistyped_decl(other)),
    }
}

/// Takes the blocks of a source.
pub fn pop_blocks(stack: &mut Vec<Item>) -> Result<Vec<Block>, Stop>
    ensures { Pops (λ blocks. block_trees blocks.items) result (stack_of stack.new) (blocks_on (stack_of stack.old)) }
{
    let item = pop_decl(stack)?;
    let found = blocks_in(item)?;
    Ok(found)
}
