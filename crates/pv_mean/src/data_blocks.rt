//! Where the data blocks of a project begin.
ghost use Rattle.std.specs.Prelude.{◌≡◌, ℕ, List, true, IfOk, OnOk, bytes_eq, map};
ghost use Rattle.pv_types.specs.Sizes.{size_of_type};
ghost use Rattle.pv_tree.specs.View.{block_tree};
ghost use Rattle.pv_tree.specs.Scopes.{ProjectTree};
ghost use Rattle.pv_mean.specs.Layout.{is_db, data_type, data_first, data_size};
ghost use Rattle.pv_mean.specs.Counts.{capped, size_known};
ghost use Rattle.pv_mean.specs.ProjectSizes.{begin_in, begin_or_end, begin_after, AddsBlock, AreSizesOf};

use crate::count::sum;
use crate::known::Known;
use indexmap::IndexMap;
use pv_edge::Text;
use pv_tree::{Block, BlockKind};
use pv_types::Name;
use std::alloc::{AllocError, Global};

/// The number of the first cell of each data block, counted from that of the first one, and how many cells there are.
#[derive(Drop)]
pub(crate) struct DataBlocks {
    firsts: IndexMap<Text, u32>,
    total: u32,
}

/// Whether blocks of the kind are data blocks.
fn is_data(kind: &BlockKind) -> bool
    ensures { result ≡ is_db kind.now }
{
    matches!(kind, BlockKind::Db { .. })
}

/// How many cells a block has as a data block.
fn held_size(known: &Known, block: &Block) -> u32
    ensures { result ≡ capped (size_of_type (size_known known.now)
        (data_type (block_tree block.now))) }
{
    match &block.kind {
        BlockKind::Db { of: None } => known.of_fields(block.interface.vars.as_slice()),
        BlockKind::Db {
            of: Some((name, _)),
        } => known.find(name),
        BlockKind::Fb | BlockKind::Fc | BlockKind::Ob | BlockKind::Udt => 0,
    }
}

impl DataBlocks {
    /// The next data block of a new name begins behind the others.
    fn add_name(&mut self, name: &Name) -> Result<(), AllocError>
        ensures begins { OnOk result ((key : List ℕ) → begin_in self.new key
            ≡ begin_after true (bytes_eq key name.now.key) (begin_in self.old key) self.old.total) }
        ensures total { OnOk result (self.new.total ≡ self.old.total) }
    {
        let own = name.key();
        if self.firsts.contains_key(own) {
            return Ok(());
        }
        let key = own.clone()?;
        self.firsts.insert(key, self.total)?;
        Ok(())
    }

    /// Puts a block behind the others, if it is a data block.
    fn add(&mut self, known: &Known, block: &Block) -> Result<(), AllocError>
        ensures { OnOk result (AddsBlock (size_known known.now) self.old self.new
            (block_tree block.now)) }
    {
        if !is_data(&block.kind) {
            return Ok(());
        }
        self.add_name(&block.name)?;
        self.total = sum(self.total, held_size(known, block));
        Ok(())
    }

    /// Those among the blocks of a project, whose named types have the sizes that are known.
    pub(crate) fn of(
        alloc: Global,
        known: &Known,
        blocks: &[Block],
    ) -> Result<DataBlocks, AllocError>
        ensures begins { (project : ProjectTree) → AreSizesOf known.now project
            → IfOk result (λ d. (key : List ℕ) → begin_or_end d key
            ≡ capped (data_first project (map block_tree blocks.now) key 0)) }
        ensures total { (project : ProjectTree) → AreSizesOf known.now project
            → IfOk result (λ d. d.total
            ≡ capped (data_size project (map block_tree blocks.now))) }
    {
        let mut blocks_so_far = DataBlocks {
            firsts: IndexMap::new(alloc),
            total: 0,
        };
        for block in blocks {
            blocks_so_far.add(known, block)?;
        }
        Ok(blocks_so_far)
    }

    /// How many cells data blocks have.
    pub(crate) fn total(&self) -> u32
        ensures { result ≡ self.now.total }
    {
        self.total
    }

    /// Where the data block of this name begins, or where all end if there is none.
    pub(crate) fn find(&self, name: &Name) -> u32
        ensures { result ≡ begin_or_end self.now name.now.key }
    {
        match self.firsts.get(name.key()) {
            Some(first) => *first,
            None => self.total,
        }
    }
}
