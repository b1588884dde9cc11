//! The blocks of a project with their tables.
ghost use Rattle.std.specs.Prelude.{◌≡◌, IfOk, map};
ghost use Rattle.pv_tree.specs.View.{block_tree};
ghost use Rattle.pv_names.specs.Firsts.{FindsFirsts};
ghost use Rattle.pv_names.specs.Entries.{block_of};

use crate::entry::Entry;
use crate::firsts::Firsts;
use pv_tree::Block;
use std::alloc::{AllocError, Global};

/// The blocks, each with its table, in their order.
pub fn entries<'p>(alloc: Global, blocks: &'p [Block]) -> Result<Vec<Entry<'p>>, AllocError>
    ensures { IfOk result (λ es. map block_of es.items ≡ map block_tree blocks.now) }
{
    let mut entries = Vec::new(alloc);
    for block in blocks {
        entries.push(Entry::of(alloc, block)?)?;
    }
    Ok(entries)
}

/// The names of the blocks.
pub(crate) fn names(alloc: Global, entries: &[Entry]) -> Result<Firsts, AllocError>
    ensures { IfOk result (λ f. FindsFirsts f (map (λ e. e.block.now.name.key) entries.now)) }
{
    let mut firsts = Firsts::new(alloc);
    for (i, entry) in entries.iter().enumerate() {
        firsts.push(&entry.block.name, i)?;
    }
    Ok(firsts)
}
