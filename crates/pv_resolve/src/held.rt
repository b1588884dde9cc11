//! Fields of what is laid out, and of data blocks.
ghost use Rattle.std.specs.Prelude.{◌≡◌, ◌<◌, ℕ, Some, None, slice_get, IfOk, IfSome, IsOk, option_map};
ghost use Rattle.pv_types.specs.View as view;
ghost use Rattle.pv_tree.specs.Scopes as scopes;
ghost use Rattle.pv_names.specs.Entries.{block_of};
ghost use Rattle.pv_names.specs.Views.{held_tree};
ghost use Rattle.pv_eval.specs.Means.{activation};
ghost use Rattle.pv_mean.specs.declared.count.TheConstants.{BEYOND};
ghost use Rattle.pv_mean.specs.Sources.{Source};
ghost use Rattle.pv_mean.specs.Activations as act;
ghost use Rattle.pv_mean.specs.Layout as layout;
ghost use Rattle.pv_mean.specs.LaidOut.{test_of};
ghost use Rattle.pv_mean.specs.Sized.{sized_project};
ghost use Rattle.pv_resolve.specs.declared.begin.Begin.{Begin as BeginOf};
ghost use Rattle.pv_resolve.specs.declared.begin.Begin.TheVariants.{In};
ghost use Rattle.pv_resolve.specs.declared.begin.Where.{Where as WhereOf};
ghost use Rattle.pv_resolve.specs.Laying.{laid_tree};
ghost use Rattle.pv_resolve.specs.Contexts.{IsContext, block_in};
ghost use Rattle.pv_resolve.specs.Begins.{begin_at, HoldsBlock};

use crate::context::Context;
use crate::fault::ResolveFault;
use crate::laid::{LaidLevel, exact};
use pv_mean::Part;
use pv_names::{Entry, Held, own_value, quoted_value};
use pv_tree::{Operand, Root};
use pv_types::{Name, Vars};

impl<'p> Context<'p> {
    /// The variable of this name among a part of these, of which the first begins at this cell.
    fn among(
        &self,
        vars: &'p [Vars],
        part: Part,
        name: &Name,
        first: u32,
    ) -> Result<Option<LaidLevel<'p>>, ResolveFault>
        ensures value { IfOk result (λ o. option_map laid_tree o
            ≡ layout.laid_among (sized_project self.now.sizes.now) (test_of part)
            (view.var_trees vars.now) name.now.key first) }
        ensures near { IfSome (layout.laid_among (sized_project self.now.sizes.now) (test_of part)
            (view.var_trees vars.now) name.now.key first) (λ l. l.first < BEYOND) → IsOk result }
    {
        exact(self.sizes.variable(vars, part, name, first))
    }

    /// The field of this name in an instance of a named type.
    fn field_of_named(
        &self,
        ty: &Name,
        name: &Name,
        first: u32,
    ) -> Result<Option<LaidLevel<'p>>, ResolveFault>
        ensures value { (source : Source) → IsContext self.now source
            → IfOk result (λ o. option_map laid_tree o
            ≡ layout.field_among source.project scopes.is_of_instance
            (scopes.type_named source.project ty.now.key) name.now.key first) }
        ensures near { (source : Source) → IsContext self.now source
            → IfSome (layout.field_among source.project scopes.is_of_instance
            (scopes.type_named source.project ty.now.key) name.now.key first)
            (λ l. l.first < BEYOND) → IsOk result }
    {
        match self.scope.find_type(ty) {
            Some(entry) => {
                let number = self.scope.tables.number_of(ty);
                self.variable_from(number, entry, Part::Instance, name, first)
            }
            None => Ok(None),
        }
    }

    /// The field of this name in what is laid out.
    pub(crate) fn field_laid(
        &self,
        laid: LaidLevel<'p>,
        name: &Name,
    ) -> Result<Option<LaidLevel<'p>>, ResolveFault>
        ensures value { (source : Source) → IsContext self.now source
            → IfOk result (λ o. option_map laid_tree o
            ≡ layout.field_laid source.project (laid_tree laid.entry) name.now.key) }
        ensures near { (source : Source) → IsContext self.now source
            → IfSome (layout.field_laid source.project (laid_tree laid.entry) name.now.key)
            (λ l. l.first < BEYOND) → IsOk result }
    {
        match laid.ty {
            Held::Struct(vars) => self.among(vars, Part::Fields, name, laid.first),
            Held::Named(ty, _) => self.field_of_named(ty, name, laid.first),
            Held::Plain(_) | Held::Array { .. } | Held::Unread => Ok(None),
        }
    }

    /// The field of this name in what the block of this number holds: where it has fields of its own, by its table.
    fn field_of_block(
        &self,
        number: usize,
        entry: &Entry<'p>,
        laid: LaidLevel<'p>,
        name: &Name,
    ) -> Result<Option<LaidLevel<'p>>, ResolveFault>
        ensures value { (source : Source) → IsContext self.now source
            → slice_get source.project.blocks number ≡ Some (block_of entry.now)
            → held_tree laid.entry.ty ≡ layout.data_type (block_of entry.now)
            → IfOk result (λ o. option_map laid_tree o
            ≡ layout.field_laid source.project (laid_tree laid.entry) name.now.key) }
        ensures near { (source : Source) → IsContext self.now source
            → slice_get source.project.blocks number ≡ Some (block_of entry.now)
            → held_tree laid.entry.ty ≡ layout.data_type (block_of entry.now)
            → IfSome (layout.field_laid source.project (laid_tree laid.entry) name.now.key)
            (λ l. l.first < BEYOND) → IsOk result }
    {
        match laid.ty {
            Held::Struct(_) => {
                self.variable_from(Some(number), entry, Part::Fields, name, laid.first)
            }
            Held::Plain(_) | Held::Array { .. } | Held::Named(..) | Held::Unread => {
                self.field_laid(laid, name)
            }
        }
    }

    /// The field of this name in what is laid out, which is what the block of this number holds, if one is given.
    pub(crate) fn field_found(
        &self,
        block: Option<usize>,
        laid: LaidLevel<'p>,
        name: &Name,
    ) -> Result<Option<LaidLevel<'p>>, ResolveFault>
        ensures value { (source : Source) (part : WhereOf) → IsContext self.now source
            → HoldsBlock source.project (In part laid.entry) block
            → IfOk result (λ o. option_map laid_tree o
            ≡ layout.field_laid source.project (laid_tree laid.entry) name.now.key) }
        ensures near { (source : Source) (part : WhereOf) → IsContext self.now source
            → HoldsBlock source.project (In part laid.entry) block
            → IfSome (layout.field_laid source.project (laid_tree laid.entry) name.now.key)
            (λ l. l.first < BEYOND) → IsOk result }
    {
        match block {
            Some(number) => match self.scope.tables.entries().get(number) {
                Some(entry) => self.field_of_block(number, entry, laid, name),
                None => self.field_laid(laid, name),
            },
            None => self.field_laid(laid, name),
        }
    }

    /// The number of the block that a word names, if it names one.
    fn block_of_word(&self, name: &Name, hash: bool) -> Option<usize>
        ensures { (source : Source) (begin : BeginOf) → IsContext self.now source
            → begin_at begin 0
            ≡ act.word_begins source (activation (block_in self.now) 0) name.now.key hash
            → HoldsBlock source.project begin result }
    {
        if hash {
            return None;
        }
        match self.scope.entry.find(name) {
            Some(_) => None,
            None => match own_value(self.scope.entry.block(), name, hash) {
                Some(_) => None,
                None => self.scope.tables.number_of(name),
            },
        }
    }

    /// The number of the block that a quoted or numbered name names, if it names one.
    fn block_of_name(&self, name: &Name) -> Option<usize>
        ensures { (source : Source) (begin : BeginOf) → IsContext self.now source
            → begin_at begin 0 ≡ act.name_begins source (activation (block_in self.now) 0) name.now.key
            → HoldsBlock source.project begin result }
    {
        match quoted_value(self.scope.entry.block(), name) {
            Some(_) => None,
            None => self.scope.tables.number_of(name),
        }
    }

    /// The number of the block that an operand begins with, if it is one; it isn't looked for where no steps follow.
    pub(crate) fn block_begun(&self, operand: &Operand) -> Option<usize>
        ensures { (source : Source) (begin : BeginOf) → IsContext self.now source
            → begin_at begin 0
            ≡ act.root_begins source (activation (block_in self.now) 0) operand.now.root.value
            → HoldsBlock source.project begin result }
    {
        if operand.steps.is_empty() {
            return None;
        }
        match &*operand.root {
            Root::Local { name, hash, .. } => self.block_of_word(name, *hash),
            Root::Named(name) => self.block_of_name(name),
            Root::Area { .. } => None,
        }
    }
}
