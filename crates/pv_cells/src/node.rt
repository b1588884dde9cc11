//! A block with its calls.
ghost use Rattle.std.specs.Prelude.{◌≡◌, option_map};
ghost use Rattle.std.specs.List.{slice_get};

use pv_tree::Block;

/// A block, how many brief cells it has of its own, and the numbers of the blocks that its calls run, call by call.
#[derive(Drop)]
pub(crate) struct Node<'p> {
    pub(crate) block: &'p Block,
    pub(crate) own: u32,
    pub(crate) calls: Vec<usize>,
}

/// The node of this number, if there are so many.
pub(crate) fn find_node<'a, 'p>(nodes: &'a [Node<'p>], number: usize) -> Option<&'a Node<'p>>
    ensures { option_map (λ n. n.now) result ≡ slice_get nodes.now number }
{
    nodes.get(number)
}
