//! How many cells lie below each block of a project, and the cells themselves.
//!
//! A block's cells are counted by those of the blocks that it calls, in as many rounds over all blocks as calls may stand behind one
//! another: so eight blocks with a hundred calls each, whose paths are 10^16, cost some thousand sums.
ghost use Rattle.std.specs.Prelude.{◌≡◌, ◌++◌, ◌<◌, ◌≤◌, ℕ, suc, Some, None, IfSome, IfNone, IfOk, OnOk, length, get_or, flat_map, option_to_list, replicate};
ghost use Rattle.std.specs.List.{slice_get};
ghost use Rattle.pv_tree.specs.Scopes.{ProjectTree};
ghost use Rattle.pv_mean.specs.Cells.{most_calls};
ghost use Rattle.pv_mean.specs.Counts.{capped};
ghost use Rattle.pv_cells.specs.Below.{at_numbers, size_of_paths, cells_of_path};
ghost use Rattle.pv_cells.specs.Graphs.{node_tree, IsNode, NodesAre, counts};
ghost use Rattle.pv_cells.specs.Planned.{planned, IsPlan};
ghost use Rattle.pv_types.specs.declared.layout.TheConstants.{MAX_LEAVES};
ghost use Rattle.pv_tree.specs.Tree.{BlockTree};
ghost use Rattle.pv_mean.specs.Cells as table;
ghost use Rattle.pv_cells.specs.Drawn.{drawn, IsGraph, IsEmptyAt};

use crate::node::{Node, find_node};
use crate::own::sum;
use crate::plan::Plan;
use crate::variables::Form;
use pv_mean::Cell;
use std::alloc::{AllocError, Global};

/// How many calls stand behind one another at most.
const MOST_CALLS: u32 = 7;

/// The count at a number, or 0 where there is none.
fn count_at(below: &[u32], number: usize) -> u32
    ensures { result ≡ get_or below.now number 0 }
{
    if number < below.len() {
        below[number]
    } else {
        0
    }
}

/// How many cells the block of a number has with what lies below it, where what lies below each block is counted.
fn size_at(nodes: &[Node], below: &[u32], number: usize) -> u32
    ensures { (project : ProjectTree) (n : ℕ) → NodesAre project nodes.now
        → below.now ≡ counts project n
        → result ≡ capped (size_of_paths project n
        (option_to_list (slice_get project.blocks number))) }
{
    match find_node(nodes, number) {
        Some(node) => sum(node.own, count_at(below, number)),
        None => 0,
    }
}

/// How many cells the blocks of these numbers have with what lies below them.
fn size_of_calls(nodes: &[Node], below: &[u32], calls: &[usize]) -> u32
    ensures { (project : ProjectTree) (n : ℕ) → NodesAre project nodes.now
        → below.now ≡ counts project n
        → result ≡ capped (size_of_paths project n (at_numbers project.blocks calls.now)) }
{
    let mut total = 0;
    for number in calls {
        total = sum(total, size_at(nodes, below, *number));
    }
    total
}

/// The counts of cells below each block, where one call more may stand behind another.
fn next_round(alloc: Global, nodes: &[Node], below: &[u32]) -> Result<Vec<u32>, AllocError>
    ensures { IfOk result (λ v. (project : ProjectTree) (n : ℕ) → NodesAre project nodes.now
        → below.now ≡ counts project n → v.items ≡ counts project (suc n)) }
{
    let mut next = Vec::new(alloc);
    for node in nodes {
        next.push(size_of_calls(nodes, below, node.calls.as_slice()))?;
    }
    Ok(next)
}

/// As many counts, each of nothing.
fn none_counted(alloc: Global, len: usize) -> Result<Vec<u32>, AllocError>
    ensures { IfOk result (λ v. v.items ≡ replicate len 0) }
{
    let counts = vec![in alloc; 0; len]?;
    Ok(counts)
}

/// The counts of cells below each block.
fn counted(alloc: Global, nodes: &[Node]) -> Result<Vec<u32>, AllocError>
    ensures { IfOk result (λ v. (project : ProjectTree) → NodesAre project nodes.now
        → v.items ≡ counts project most_calls) }
{
    let mut below = none_counted(alloc, nodes.len())?;
    for _round in 0..MOST_CALLS {
        let next = next_round(alloc, nodes, below.as_slice())?;
        below = next;
    }
    Ok(below)
}

/// The blocks of a project with their calls, and how many cells lie below each.
#[derive(Drop)]
pub(crate) struct Graph<'p> {
    pub(crate) plan: &'p Plan<'p>,
    pub(crate) nodes: Vec<Node<'p>>,
    below: Vec<u32>,
}

impl<'p> Graph<'p> {
    /// That of a project.
    pub(crate) fn of(alloc: Global, plan: &'p Plan<'p>) -> Result<Graph<'p>, AllocError>
        requires { IsPlan plan.now }
        ensures graph { IfOk result (λ g. IsGraph g) }
        ensures project { IfOk result (λ g. drawn g ≡ planned plan.now) }
    {
        let nodes = plan.nodes(alloc)?;
        let below = counted(alloc, nodes.as_slice())?;
        Ok(Graph { plan, nodes, below })
    }

    /// The block of a number.
    pub(crate) fn find(&self, number: usize) -> Option<&Node<'p>>
        requires { IsGraph self.now }
        ensures is { IfSome result (λ n. IsNode (drawn self.now) n.now) }
        ensures some { IfSome result (λ n. slice_get (drawn self.now).blocks number ≡ Some (node_tree n.now)) }
        ensures none { IfNone result (slice_get (drawn self.now).blocks number ≡ None) }
    {
        find_node(self.nodes.as_slice(), number)
    }

    /// How many brief cells the paths of calls from a block have.
    pub(crate) fn size_at(&self, number: usize) -> u32
        requires { IsGraph self.now }
        ensures { (block : BlockTree) → slice_get (drawn self.now).blocks number ≡ Some block
            → result ≡ capped (length (table.brief_cells (drawn self.now) block)) }
    {
        size_at(self.nodes.as_slice(), self.below.as_slice(), number)
    }

    /// The block of a number, unless neither it nor what lies below it has brief cells.
    fn node_at(&self, number: usize) -> Option<&Node<'p>>
        requires { IsGraph self.now }
        ensures some { IfSome result (λ n. slice_get self.now.nodes.items number ≡ Some n.now) }
        ensures none { IfNone result (IsEmptyAt (drawn self.now) number) }
    {
        if self.size_at(number) == 0 {
            return None;
        }
        find_node(self.nodes.as_slice(), number)
    }

    /// Puts the cells of a path behind others: a block's own, and those below it, where so many further calls may stand behind one
    /// another.
    #[cycle(pushing)]
    fn push_path(
        &self,
        alloc: Global,
        cells: &mut Vec<Cell>,
        left: u32,
        node: &Node<'p>,
    ) -> Result<(), AllocError>
        requires graph { IsGraph self.now }
        requires is { IsNode (drawn self.now) node.now }
        requires further { left < most_calls }
        requires few { length (cells_of_path (drawn self.now) left (node_tree node.now)) ≤ MAX_LEAVES }
        ensures { OnOk result (cells.new.items ≡ cells.old.items
            ++ cells_of_path (drawn self.now) left (node_tree node.now)) }
    {
        self.plan
            .push_own(alloc, cells, node.block, Form::Nameless)?;
        if left == 0 {
            return Ok(());
        }
        self.push_below(alloc, cells, left - 1, node.calls.as_slice())
    }

    /// Puts the cells of the path that begins at the block of a number behind others.
    #[cycle(pushing)]
    fn push_number(
        &self,
        alloc: Global,
        cells: &mut Vec<Cell>,
        left: u32,
        number: usize,
    ) -> Result<(), AllocError>
        requires graph { IsGraph self.now }
        requires further { left < most_calls }
        requires few { length (flat_map (cells_of_path (drawn self.now) left)
            (option_to_list (slice_get (drawn self.now).blocks number))) ≤ MAX_LEAVES }
        ensures { OnOk result (cells.new.items ≡ cells.old.items
            ++ flat_map (cells_of_path (drawn self.now) left)
            (option_to_list (slice_get (drawn self.now).blocks number))) }
    {
        match self.node_at(number) {
            Some(node) => self.push_path(alloc, cells, left, node),
            None => Ok(()),
        }
    }

    /// Puts the cells of the paths that begin at the blocks of these numbers behind others.
    #[cycle(pushing)]
    fn push_below(
        &self,
        alloc: Global,
        cells: &mut Vec<Cell>,
        left: u32,
        calls: &[usize],
    ) -> Result<(), AllocError>
        requires graph { IsGraph self.now }
        requires further { left < most_calls }
        requires few { length (flat_map (cells_of_path (drawn self.now) left)
            (at_numbers (drawn self.now).blocks calls.now)) ≤ MAX_LEAVES }
        ensures { OnOk result (cells.new.items ≡ cells.old.items
            ++ flat_map (cells_of_path (drawn self.now) left)
            (at_numbers (drawn self.now).blocks calls.now)) }
    {
        for number in calls {
            self.push_number(alloc, cells, left, *number)?;
        }
        Ok(())
    }

    /// Puts the brief cells of the block that is entered behind others, and those of all paths of its calls.
    pub(crate) fn push_entered(
        &self,
        alloc: Global,
        cells: &mut Vec<Cell>,
        node: &Node<'p>,
    ) -> Result<(), AllocError>
        requires graph { IsGraph self.now }
        requires is { IsNode (drawn self.now) node.now }
        requires few { length (table.brief_cells (drawn self.now) (node_tree node.now)) ≤ MAX_LEAVES }
        ensures { OnOk result (cells.new.items ≡ cells.old.items
            ++ table.brief_cells (drawn self.now) (node_tree node.now)) }
    {
        self.plan.push_own(alloc, cells, node.block, Form::Brief)?;
        self.push_below(alloc, cells, MOST_CALLS - 1, node.calls.as_slice())
    }
}
