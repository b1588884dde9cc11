//! How large blocks are as automata.
use crate::reading::blocks_of;
use pv_names::{Entry, Scope, Tables, entries};
use pv_rows_form::{Row, Told};
use pv_sizes::block_size;
use pv_tree::{Block, Operand};
use pv_types::Name;
use pv_word::Ty;
use std::alloc::AllocError;

/// The size of the last block of these tables.
fn tell_last(tables: &Tables, told: &mut Told) {
    if let Some(entry) = tables.entries().last() {
        let scope = Scope { tables, entry };
        told.number(i128::from(block_size(&scope)));
    }
}

/// The same, where each block has its table.
fn tell_among(
    all: &[Entry],
    symbols: &[(Name, Operand, Ty)],
    told: &mut Told,
) -> Result<(), AllocError> {
    let tables = Tables::of(told.alloc(), all, symbols)?;
    tell_last(&tables, told);
    Ok(())
}

/// The size of the last of these blocks.
fn tell_blocks(blocks: &[Block], told: &mut Told) -> Result<(), AllocError> {
    let all = entries(told.alloc(), blocks)?;
    tell_among(all.as_slice(), &[], told)
}

/// The size of the last block of the row's source.
pub fn tell_size(row: Row<'_>, told: &mut Told) {
    let blocks = blocks_of(row, told);
    if tell_blocks(blocks.as_slice(), told).is_err() {
        told.lose();
    }
    drop(blocks);
}
