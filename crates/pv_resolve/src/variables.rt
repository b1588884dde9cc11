//! The variables of a block, with their first cells: by its table, where there is one that has them, else by a walk along those in
//! front.
ghost use Rattle.std.specs.Prelude.{◌≡◌, ◌<◌, ℕ, List, Bool, Option, Some, IfOk, IfSome, IsOk, option_map};
ghost use Rattle.pv_types.specs.declared.declaration.Section.{Section};
ghost use Rattle.pv_types.specs.Tree.{VarTree};
ghost use Rattle.pv_tree.specs.Scopes.{ProjectTree};
ghost use Rattle.pv_names.specs.Entries.{block_of};
ghost use Rattle.pv_mean.specs.declared.count.TheConstants.{BEYOND};
ghost use Rattle.pv_mean.specs.Sources.{Source};
ghost use Rattle.pv_mean.specs.Layout as layout;
ghost use Rattle.pv_mean.specs.LaidOut as counted;
ghost use Rattle.pv_resolve.specs.Laying.{laid_tree};
ghost use Rattle.pv_resolve.specs.Contexts.{IsContext};
ghost use Rattle.pv_resolve.specs.Firsts.{laid_nth, IsNumbered};

use crate::context::Context;
use crate::fault::ResolveFault;
use crate::laid::{LaidLevel, exact};
use pv_mean::{BEYOND, Laid, Part};
use pv_names::Entry;
use pv_types::{Name, Section};

/// What was found, where the first of all begins at this cell.
fn laid_behind<'p>(found: Option<Laid<'p>>, first: u32) -> Option<Laid<'p>>
    ensures { (project : ProjectTree) (test : Section → Bool) (vars : List VarTree) (key : List ℕ)
        → option_map counted.laid_tree found.entry
        ≡ option_map counted.capped_laid (layout.laid_among project test vars key 0)
        → option_map counted.laid_tree result
        ≡ option_map counted.capped_laid (layout.laid_among project test vars key first) }
{
    match found {
        Some(laid) => Some(Laid {
            ty: laid.ty,
            first: first.saturating_add(laid.first).min(BEYOND),
        }),
        None => None,
    }
}

impl<'p> Context<'p> {
    /// The variable of this number of a block, by the table of the block of that number, if there is one that has it.
    fn nth(
        &self,
        block: Option<usize>,
        entry: &Entry<'p>,
        part: Part,
        number: usize,
    ) -> Option<Laid<'p>>
        ensures { (source : Source) → IsContext self.now source
            → IsNumbered source.project block (block_of entry.now)
            → IfSome result (λ laid. laid_nth source.project (counted.test_of part)
            (block_of entry.now).vars number 0 ≡ Some (counted.laid_tree laid)) }
    {
        match self.firsts {
            Some(firsts) => match block {
                Some(n) => firsts.nth(n, part, entry.vars(), number),
                None => None,
            },
            None => None,
        }
    }

    /// The variable of this name among a part of a block's, by a walk along them.
    fn walked(&self, entry: &Entry<'p>, part: Part, name: &Name) -> Option<Laid<'p>>
        ensures { (source : Source) → IsContext self.now source
            → option_map counted.laid_tree result ≡ option_map counted.capped_laid
            (layout.laid_among source.project (counted.test_of part) (block_of entry.now).vars
            name.now.key 0) }
    {
        let vars = entry.block().interface.vars.as_slice();
        self.sizes.variable(vars, part, name, 0)
    }

    /// The variable of this name among a part of those of a block, which is the project's of this number if one is given.
    pub(crate) fn variable_in(
        &self,
        block: Option<usize>,
        entry: &Entry<'p>,
        part: Part,
        name: &Name,
    ) -> Option<Laid<'p>>
        ensures { (source : Source) → IsContext self.now source
            → IsNumbered source.project block (block_of entry.now)
            → option_map counted.laid_tree result ≡ option_map counted.capped_laid
            (layout.laid_among source.project (counted.test_of part) (block_of entry.now).vars
            name.now.key 0) }
    {
        match entry.number_of(name) {
            Some(number) => match self.nth(block, entry, part, number) {
                Some(laid) => Some(laid),
                None => self.walked(entry, part, name),
            },
            None => None,
        }
    }

    /// The same, where the first of the part begins at this cell and the number is exact.
    pub(crate) fn variable_from(
        &self,
        block: Option<usize>,
        entry: &Entry<'p>,
        part: Part,
        name: &Name,
        first: u32,
    ) -> Result<Option<LaidLevel<'p>>, ResolveFault>
        ensures value { (source : Source) → IsContext self.now source
            → IsNumbered source.project block (block_of entry.now)
            → IfOk result (λ o. option_map laid_tree o ≡ layout.laid_among source.project
            (counted.test_of part) (block_of entry.now).vars name.now.key first) }
        ensures near { (source : Source) → IsContext self.now source
            → IsNumbered source.project block (block_of entry.now)
            → IfSome (layout.laid_among source.project (counted.test_of part)
            (block_of entry.now).vars name.now.key first) (λ l. l.first < BEYOND) → IsOk result }
    {
        exact(laid_behind(self.variable_in(block, entry, part, name), first))
    }
}
