//! The sizes of a project: how many cells its types and blocks have, and where its data blocks begin.
//!
//! All is found once, in time that is linear in the project; a number of cells is exact up to what a table may have, and counts as
//! [`crate::BEYOND`] above it.

ghost use Rattle.std.specs.Prelude.{◌≡◌, ℕ, List, IfOk, option_map};
ghost use Rattle.pv_types.specs.View.{type_tree, var_trees};
ghost use Rattle.pv_tree.specs.View.{block_tree};
ghost use Rattle.pv_tree.specs.Scopes as scopes;
ghost use Rattle.pv_mean.specs.Layout as layout;
ghost use Rattle.pv_mean.specs.Counts.{capped};
ghost use Rattle.pv_mean.specs.BlockNames.{HasNumbers};
ghost use Rattle.pv_mean.specs.ProjectSizes.{project_tree, begin_or_end, AreSizesOf};

use crate::count::sum;
use crate::data_blocks::DataBlocks;
use crate::known::Known;
use crate::names::BlockNames;
use crate::sizing::Sizing;
use crate::types::{is_type, named_types};
use pv_tree::{Block, BlockKind, Project};
use pv_types::{DeclType, Name, Vars};
use std::alloc::{AllocError, Global};

/// The sizes of a project.
#[derive(Drop)]
pub struct Sizes<'p> {
    project: &'p Project,
    names: BlockNames,
    known: Known,
    data_blocks: DataBlocks,
    ghost by_name: { HasNumbers names (project_tree project.now).blocks },
    ghost of_types: { AreSizesOf known (project_tree project.now) },
    ghost begins: { (key : List ℕ) → begin_or_end data_blocks key
        ≡ capped (layout.data_first (project_tree project.now) (project_tree project.now).blocks key 0) },
    ghost whole: { data_blocks.total
        ≡ capped (layout.data_size (project_tree project.now) (project_tree project.now).blocks) },
}

impl<'p> Sizes<'p> {
    ghost use Rattle.pv_mean.specs.Sized.{sized_project};

    /// Those of a project.
    pub fn of(alloc: Global, project: &'p Project) -> Result<Sizes<'p>, AllocError>
        ensures { IfOk result (λ s. sized_project s ≡ project_tree project.now) }
    {
        let blocks = project.blocks().list.as_slice();
        let names = BlockNames::of(alloc, blocks)?;
        let types = named_types(alloc, blocks)?;
        let known = Sizing::of(alloc, types, blocks)?.run()?;
        let data_blocks = DataBlocks::of(alloc, &known, blocks)?;
        Ok(Sizes {
            project,
            names,
            known,
            data_blocks,
        })
    }

    /// The first block of this name.
    fn find_block(&self, name: &Name) -> Option<&'p Block>
        ensures { option_map (λ b. block_tree b.now) result
            ≡ scopes.first_block (sized_project self.now).blocks name.now.key }
    {
        match self.names.find(name) {
            Some(number) => self.project.blocks().list.as_slice().get(number),
            None => None,
        }
    }

    /// The block that is the type of this name.
    pub(crate) fn find_type(&self, name: &Name) -> Option<&'p Block>
        ensures { option_map (λ b. block_tree b.now) result
            ≡ scopes.type_named (sized_project self.now) name.now.key }
    {
        match self.find_block(name) {
            Some(block) => {
                if is_type(&block.kind) {
                    Some(block)
                } else {
                    None
                }
            }
            None => None,
        }
    }

    /// How many cells a type has.
    pub fn of_type(&self, ty: &DeclType) -> u32
        ensures { result ≡ capped (layout.size_in (sized_project self.now) (type_tree ty.now)) }
    {
        self.known.of_type(ty)
    }

    /// How many cells an instance with these variables has: all but its temporary ones.
    pub fn of_instance(&self, vars: &[Vars]) -> u32
        ensures { result ≡ capped (layout.size_among (sized_project self.now) scopes.is_of_instance
            (var_trees vars.now)) }
    {
        self.known.of_instance(vars)
    }

    /// How many visible cells an entered block has of its own: a function block's instance.
    pub fn of_entry(&self, block: &Block) -> u32
        ensures { result ≡ capped (layout.entry_size (sized_project self.now) (block_tree block.now)) }
    {
        match block.kind {
            BlockKind::Fb => self.of_instance(block.interface.vars.as_slice()),
            BlockKind::Fc | BlockKind::Ob | BlockKind::Db { .. } | BlockKind::Udt => 0,
        }
    }

    /// How many cells all data blocks have.
    pub fn of_data_blocks(&self) -> u32
        ensures { result ≡ capped (layout.data_size (sized_project self.now)
            (sized_project self.now).blocks) }
    {
        self.data_blocks.total()
    }

    /// The number of the first cell of the data block of this name, where those of the first block begin at `first`; behind all of
    /// them where there is none.
    pub fn data_first(&self, name: &Name, first: u32) -> u32
        ensures { result ≡ capped (layout.data_first (sized_project self.now)
            (sized_project self.now).blocks name.now.key first) }
    {
        sum(first, self.data_blocks.find(name))
    }
}
