//! Blocks without instructions.
ghost use Rattle.std.specs.Prelude.{◌≡◌, ◌↔◌, IsTrue, map};
ghost use Rattle.std.specs.List.{list_all};
ghost use Rattle.pv_tree.specs.View.{block_tree};
ghost use Rattle.pv_rules.specs.NoInstructions.{is_plain, ArePlain};

use pv_tree::{Block, Body};

/// Whether a block has no instructions.
fn is_plain(block: &Block) -> bool
    ensures { result ≡ is_plain (block_tree block.now) }
{
    match &block.body {
        Body::Stl(list) => list.as_slice().split_first().is_none(),
        Body::Scl(_) => true,
        Body::Starts(_) => true,
    }
}

/// Whether each of the blocks has none.
fn are_plain(blocks: &[Block]) -> bool
    ensures { result ≡ list_all (λ b. is_plain (block_tree b)) blocks.now }
{
    blocks.iter().all(|block| is_plain(block))
}

/// Whether no block has instructions.
pub fn has_no_instructions(blocks: &[Block]) -> bool
    ensures { IsTrue result ↔ ArePlain (map block_tree blocks.now) }
{
    are_plain(blocks)
}
