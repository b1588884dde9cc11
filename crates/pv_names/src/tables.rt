//! What the names of a project are looked up in: its blocks, each with its variables, and its symbols. Each table is made once,
//! and of two of one name it gives the first.
ghost use Rattle.std.specs.Prelude.{map};
ghost use Rattle.pv_names.specs.Firsts.{FindsFirsts};

use crate::blocks::names;
use crate::entry::Entry;
use crate::firsts::Firsts;
use pv_tree::Operand;
use pv_types::Name;
use pv_word::Ty;
use std::alloc::{AllocError, Global};

/// The tables of a project.
#[derive(Drop)]
pub struct Tables<'p> {
    entries: &'p [Entry<'p>],
    blocks: Firsts,
    symbols: &'p [(Name, Operand, Ty)],
    symbol_names: Firsts,
    ghost by_block: { FindsFirsts blocks (map (λ e. e.block.now.name.key) entries.now) },
    ghost by_symbol: { FindsFirsts symbol_names (map (λ s. s.0.key) symbols.now) },
}

impl<'p> Tables<'p> {
    ghost use Rattle.std.specs.Prelude.{◌≡◌, IfOk, option_map, bytes_eq};
    ghost use Rattle.pv_tree.specs.Projects.{symbol_tree};
    ghost use Rattle.pv_tree.specs.Scopes.{first_block, first_symbol};
    ghost use Rattle.pv_names.specs.Entries.{block_of};
    ghost use Rattle.pv_names.specs.Firsts.{first_number};
    ghost use Rattle.pv_names.specs.Tables.{symbols_of, blocks_of};

    /// The tables of these blocks and symbols.
    pub fn of(
        alloc: Global,
        entries: &'p [Entry<'p>],
        symbols: &'p [(Name, Operand, Ty)],
    ) -> Result<Tables<'p>, AllocError>
        ensures blocks { IfOk result (λ t. blocks_of t ≡ map block_of entries.now) }
        ensures symbols { IfOk result (λ t. symbols_of t ≡ map symbol_tree symbols.now) }
    {
        let blocks = names(alloc, entries)?;
        let symbol_names = Firsts::of_symbols(alloc, symbols)?;
        Ok(Tables {
            entries,
            blocks,
            symbols,
            symbol_names,
        })
    }

    /// The blocks with their tables, in their order.
    pub fn entries(&self) -> &'p [Entry<'p>]
        ensures { map block_of result.now ≡ blocks_of self.now }
    {
        self.entries
    }

    /// The first block of this name.
    pub fn find_block(&self, name: &Name) -> Option<&'p Entry<'p>>
        ensures { option_map (λ e. block_of e.now) result
            ≡ first_block (blocks_of self.now) name.now.key }
    {
        match self.blocks.find(name) {
            Some(number) => self.entries.get(number),
            None => None,
        }
    }

    /// The number of the first block of this name.
    pub fn number_of(&self, name: &Name) -> Option<usize>
        ensures { result ≡ first_number (bytes_eq name.now.key)
            (map (λ b. b.name.key) (blocks_of self.now)) }
    {
        self.blocks.find(name)
    }

    /// The first symbol of this name.
    pub fn find_symbol(&self, name: &Name) -> Option<&'p (Name, Operand, Ty)>
        ensures { option_map (λ s. symbol_tree s.now) result
            ≡ first_symbol (symbols_of self.now) name.now.key }
    {
        match self.symbol_names.find(name) {
            Some(number) => self.symbols.get(number),
            None => None,
        }
    }
}
