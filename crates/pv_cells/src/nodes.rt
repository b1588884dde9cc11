//! The blocks of a project with their calls.
ghost use Rattle.std.specs.Prelude.{◌≡◌, ◌++◌, ◌∷◌, [], Some, IfOk, OnOk, option_to_list};
ghost use Rattle.pv_tree.specs.Scopes.{first_block};
ghost use Rattle.pv_tree.specs.Callees.{callee_of, block_of_callee};
ghost use Rattle.pv_mean.specs.Chains.{RunsSuch};
ghost use Rattle.pv_names.specs.Callees.{callee_tree};
ghost use Rattle.pv_names.specs.Entries.{block_of};
ghost use Rattle.pv_names.specs.Tables.{blocks_of};
ghost use Rattle.pv_cells.specs.Below.{callees_in, at_numbers};
ghost use Rattle.pv_cells.specs.Calls.{made_tree};
ghost use Rattle.pv_cells.specs.Graphs.{at_number, node_tree, IsNode, NodesAre};
ghost use Rattle.pv_cells.specs.Planned.{planned, IsPlan};

use crate::calls::calls_of_block;
use crate::made::Made;
use crate::node::Node;
use crate::plan::Plan;
use pv_names::{Callee, Entry, Scope, Tables};
use std::alloc::{AllocError, Global};

/// The number of the block that a call runs.
fn number_of_callee(tables: &Tables, callee: Callee) -> Option<usize>
    ensures { RunsSuch (λ b. first_block (blocks_of tables.now) b.name.key ≡ Some b)
        (callee_tree callee.entry)
        → at_number (blocks_of tables.now) result ≡ block_of_callee (callee_tree callee.entry) }
{
    match callee {
        Callee::Runs(entry) => tables.number_of(&entry.block().name),
        Callee::NotDeclared(_) => None,
        Callee::NotCallable(_) => None,
        Callee::Unknown => None,
    }
}

/// Puts a number behind others.
fn push_number(numbers: &mut Vec<usize>, number: usize) -> Result<(), AllocError>
    ensures { OnOk result (numbers.new.items ≡ numbers.old.items ++ number ∷ []) }
{
    numbers.push(number)?;
    Ok(())
}

impl<'p> Plan<'p> {
    /// Puts the number of the block that a call runs behind others, if it runs one.
    fn push_callee(
        &self,
        numbers: &mut Vec<usize>,
        entry: &'p Entry<'p>,
        made: &Made<'p>,
    ) -> Result<(), AllocError>
        requires { IsPlan self.now }
        ensures { OnOk result (at_numbers (planned self.now).blocks numbers.new.items
            ≡ at_numbers (planned self.now).blocks numbers.old.items ++ option_to_list
            (block_of_callee (callee_of (record { project = planned self.now; block = block_of entry.now })
            (made_tree made.now)))) }
    {
        let scope = Scope {
            tables: self.tables,
            entry,
        };
        let callee = scope.callee_of(made.how, made.call);
        match number_of_callee(self.tables, callee) {
            Some(number) => push_number(numbers, number),
            None => Ok(()),
        }
    }

    /// The numbers of the blocks that the calls of a block run, call by call.
    fn callees(&self, alloc: Global, entry: &'p Entry<'p>) -> Result<Vec<usize>, AllocError>
        requires { IsPlan self.now }
        ensures { IfOk result (λ v. at_numbers (planned self.now).blocks v.items
            ≡ callees_in (planned self.now) (block_of entry.now)) }
    {
        let mut numbers = Vec::new(alloc);
        let calls = calls_of_block(alloc, entry.block())?;
        for made in &calls {
            self.push_callee(&mut numbers, entry, made)?;
        }
        Ok(numbers)
    }

    /// The node of a block.
    fn node_of(&self, alloc: Global, entry: &'p Entry<'p>) -> Result<Node<'p>, AllocError>
        requires { IsPlan self.now }
        ensures is { IfOk result (λ n. IsNode (planned self.now) n) }
        ensures block { IfOk result (λ n. node_tree n ≡ block_of entry.now) }
    {
        let block = entry.block();
        let own = self.own_size(block);
        let calls = self.callees(alloc, entry)?;
        Ok(Node { block, own, calls })
    }

    /// The blocks with their calls, in their order.
    pub(crate) fn nodes(&self, alloc: Global) -> Result<Vec<Node<'p>>, AllocError>
        requires { IsPlan self.now }
        ensures { IfOk result (λ v. NodesAre (planned self.now) v.items) }
    {
        let mut nodes = Vec::new(alloc);
        let entries = self.tables.entries();
        for entry in entries {
            let node = self.node_of(alloc, entry)?;
            nodes.push(node)?;
        }
        Ok(nodes)
    }
}
