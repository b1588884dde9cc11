//! The leaves of declarations.
use crate::reading::{blocks_of, type_word};
use pv_rows_form::{Row, Told};
use pv_tree::Block;
use pv_types::{FlattenFault, Leaf, Types, flatten};
use std::alloc::AllocError;

/// A leaf: its path, type, start value, and the word of its section.
fn tell_leaf(leaf: &Leaf, told: &mut Told) {
    told.bytes(leaf.path.bytes());
    told.text(":");
    told.text(type_word(leaf.ty));
    told.text(":");
    told.number(leaf.start);
    told.text(":");
    told.words(&leaf.section);
}

/// Leaves with blanks between them, or `many` where they are more than 100.
fn tell_each(leaves: &[Leaf], told: &mut Told) {
    if leaves.len() > 100 {
        return told.text("many");
    }
    let mut between = "";
    for leaf in leaves {
        told.text(between);
        tell_leaf(leaf, told);
        between = " ";
    }
}

/// Adds the variables of blocks as types of their names.
fn add<'p>(types: &mut Types<'p>, named: &'p [Block]) -> Result<(), AllocError> {
    for block in named {
        types.push(&block.name, block.interface.vars.as_slice())?;
    }
    Ok(())
}

/// The leaves of a block's variables.
fn tell_flat(block: &Block, types: &Types<'_>, told: &mut Told) {
    match flatten(told.alloc(), block.interface.vars.as_slice(), types) {
        Ok(leaves) => tell_each(leaves.as_slice(), told),
        Err(FlattenFault::TooLarge) => told.text("TooLarge"),
        Err(FlattenFault::NoMemory) => told.lose(),
    }
}

/// The leaves of the last block's variables, with the other blocks as types.
fn tell_last(blocks: &[Block], told: &mut Told) {
    if let Some((block, named)) = blocks.split_last() {
        let mut types = Types::new(told.alloc());
        match add(&mut types, named) {
            Ok(()) => tell_flat(block, &types, told),
            Err(_) => told.lose(),
        }
    }
}

/// The leaves of the last block of the row's source.
pub fn tell_leaves(row: Row<'_>, told: &mut Told) {
    let blocks = blocks_of(row, told);
    tell_last(blocks.as_slice(), told);
    drop(blocks);
}
