//! The blocks of a project by their names.
ghost use Rattle.std.specs.Prelude.{◌≡◌, ℕ, List, IfOk, OnOk, bytes_eq, map};
ghost use Rattle.pv_tree.specs.View.{block_tree};
ghost use Rattle.pv_mean.specs.BlockNames.{number_in, number_after, HasNumbers};

use indexmap::IndexMap;
use pv_edge::Text;
use pv_tree::Block;
use pv_types::Name;
use std::alloc::{AllocError, Global};

/// The numbers of blocks by their names: of two of one name that of the first.
#[derive(Drop)]
pub(crate) struct BlockNames {
    numbers: IndexMap<Text, usize>,
}

impl BlockNames {
    /// Puts a name with its number behind the others, unless it is there.
    fn add(&mut self, name: &Name, number: usize) -> Result<(), AllocError>
        ensures { OnOk result ((key : List ℕ) → number_in self.new key
            ≡ number_after (number_in self.old key) (bytes_eq key name.now.key) number) }
    {
        let own = name.key();
        if self.numbers.contains_key(own) {
            return Ok(());
        }
        let key = own.clone()?;
        self.numbers.insert(key, number)?;
        Ok(())
    }

    /// Those of a list of blocks.
    pub(crate) fn of(alloc: Global, blocks: &[Block]) -> Result<BlockNames, AllocError>
        ensures { IfOk result (λ names. HasNumbers names (map block_tree blocks.now)) }
    {
        let mut names = BlockNames {
            numbers: IndexMap::new(alloc),
        };
        for (i, block) in blocks.iter().enumerate() {
            names.add(&block.name, i)?;
        }
        Ok(names)
    }

    /// The number of the block of this name.
    pub(crate) fn find(&self, name: &Name) -> Option<usize>
        ensures { result ≡ number_in self.now name.now.key }
    {
        match self.numbers.get(name.key()) {
            Some(number) => Some(*number),
            None => None,
        }
    }
}
