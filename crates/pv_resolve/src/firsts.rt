//! Where the variables of a project's blocks lie: found once, in time that is linear in the project, so that of each name it is then
//! known without a walk along the variables in front of it.
ghost use Rattle.std.specs.Prelude.{◌≡◌, ◌+◌, ◌++◌, ℕ, ◌∷◌, [], map, slice_get, is_some, Some, List, IfOk, IfSome, OnOk};
ghost use Rattle.pv_types.specs.View.{type_tree, vars_tree, var_tree, var_trees};
ghost use Rattle.pv_types.specs.Tree.{VarTree};
ghost use Rattle.pv_tree.specs.Scopes.{ProjectTree, is_fb};
ghost use Rattle.pv_tree.specs.Tree.{BlockTree};
ghost use Rattle.pv_tree.specs.View.{block_tree};
ghost use Rattle.pv_mean.specs.Layout as layout;
ghost use Rattle.pv_mean.specs.LaidOut as counted;
ghost use Rattle.pv_mean.specs.declared.laid.Part.TheVariants.{Temporary};
ghost use Rattle.pv_mean.specs.Sized.{sized_project};
ghost use Rattle.pv_mean.specs.Sources.{Source};
ghost use Rattle.pv_mean.specs.Counts.{capped};
ghost use Rattle.pv_resolve.specs.Contexts.{IsContext};
ghost use Rattle.pv_resolve.specs.Firsts.{fronts, laid_nth, main_part, AddsVariables, HasFronts, HasFirsts, AreOfBlock, AreFirsts};

use crate::context::Context;
use pv_mean::{BEYOND, Laid, Part, Sizes};
use pv_tree::{Block, BlockKind};
use pv_types::{Var, Vars};
use std::alloc::{AllocError, Global};

/// Of each variable of a block the cells in front of it among those of a part, and the cells of all so far.
#[derive(Drop)]
struct PartFirsts {
    part: Part,
    numbers: Vec<u32>,
    total: u32,
}

impl PartFirsts {
    /// How many cells each of the variables that are declared at once has in the part.
    fn size_of(&self, sizes: &Sizes, of: &Vars) -> u32
        ensures { result ≡ capped (counted.size_where (counted.test_of self.now.part of.now.section)
            (layout.size_in (sized_project sizes.now) (type_tree of.now.ty))) }
    {
        if self.part.has(of.section) {
            sizes.of_type(&of.ty)
        } else {
            0
        }
    }

    /// Puts a variable of so many cells behind the others.
    fn add_one(&mut self, size: u32) -> Result<(), AllocError>
        ensures part { OnOk result (self.new.part ≡ self.old.part) }
        ensures numbers { OnOk result (self.new.numbers.items
            ≡ self.old.numbers.items ++ self.old.total ∷ []) }
        ensures total { OnOk result (self.new.total ≡ capped (self.old.total + size)) }
    {
        self.numbers.push(self.total)?;
        self.total = self.total.saturating_add(size).min(BEYOND);
        Ok(())
    }

    /// Puts variables that are declared at once behind the others.
    fn add(&mut self, sizes: &Sizes, of: &Vars) -> Result<(), AllocError>
        ensures { OnOk result (AddsVariables (sized_project sizes.now) self.old self.new
            (vars_tree of.now)) }
    {
        let size = self.size_of(sizes, of);
        for _word in &of.names {
            self.add_one(size)?;
        }
        Ok(())
    }

    /// Those of a part of these variables.
    fn of(alloc: Global, sizes: &Sizes, part: Part, vars: &[Vars]) -> Result<PartFirsts, AllocError>
        ensures fronts { IfOk result (HasFronts (sized_project sizes.now) (var_trees vars.now)) }
        ensures part { IfOk result (λ p. p.part ≡ part) }
    {
        let mut so_far = PartFirsts {
            part,
            numbers: Vec::new(alloc),
            total: 0,
        };
        for of in vars {
            so_far.add(sizes, of)?;
        }
        Ok(so_far)
    }

    /// The variable, which has this number, if it is of the part.
    fn laid<'p>(&self, var: Var<'p>, number: usize) -> Option<Laid<'p>>
        ensures { (project : ProjectTree) (vars : List VarTree) → HasFronts project vars self.now
            → slice_get vars number ≡ Some (var_tree var.entry)
            → IfSome result (λ laid. laid_nth project (counted.test_of self.now.part) vars number 0
            ≡ Some (counted.laid_tree laid)) }
    {
        if !self.part.has(var.of.section) {
            return None;
        }
        match self.numbers.as_slice().get(number) {
            Some(first) => Some(Laid {
                ty: &var.of.ty,
                first: *first,
            }),
            None => None,
        }
    }

    /// The variable of this number, if it is of the part.
    fn nth<'p>(&self, vars: &[Var<'p>], number: usize) -> Option<Laid<'p>>
        ensures { (project : ProjectTree) → HasFronts project (map var_tree vars.now) self.now
            → IfSome result (λ laid. laid_nth project (counted.test_of self.now.part)
            (map var_tree vars.now) number 0 ≡ Some (counted.laid_tree laid)) }
    {
        match vars.get(number) {
            Some(var) => self.laid(*var, number),
            None => None,
        }
    }
}

/// The tables of a block: of a data block its fields, of a type what an instance has, of a function or an OB what an activation has;
/// and of a function block its temporary variables besides.
#[derive(Drop)]
struct BlockFirsts {
    main: PartFirsts,
    temporary: Option<PartFirsts>,
}

/// The part of the first table of a block.
fn main_part(kind: &BlockKind) -> Part
    ensures { result ≡ main_part kind.now }
{
    match kind {
        BlockKind::Fb => Part::Instance,
        BlockKind::Udt => Part::Instance,
        BlockKind::Fc => Part::Activation,
        BlockKind::Ob => Part::Activation,
        BlockKind::Db { .. } => Part::Fields,
    }
}

/// The table of a function block's temporary variables; other blocks have none.
fn temporary_of(
    alloc: Global,
    sizes: &Sizes,
    block: &Block,
) -> Result<Option<PartFirsts>, AllocError>
    ensures fronts { IfOk result (λ o. IfSome o (HasFronts (sized_project sizes.now)
        (block_tree block.now).vars)) }
    ensures two { IfOk result (λ o. is_some o ≡ is_fb (block_tree block.now).kind) }
    ensures second { IfOk result (λ o. IfSome o (λ p. p.part ≡ Temporary)) }
{
    match block.kind {
        BlockKind::Fb => {
            let vars = block.interface.vars.as_slice();
            let firsts = PartFirsts::of(alloc, sizes, Part::Temporary, vars)?;
            Ok(Some(firsts))
        }
        BlockKind::Fc => Ok(None),
        BlockKind::Ob => Ok(None),
        BlockKind::Db { .. } => Ok(None),
        BlockKind::Udt => Ok(None),
    }
}

impl BlockFirsts {
    /// Those of a block of the project of these sizes.
    fn of(alloc: Global, sizes: &Sizes, block: &Block) -> Result<BlockFirsts, AllocError>
        ensures { IfOk result (AreOfBlock (sized_project sizes.now) (block_tree block.now)) }
    {
        let vars = block.interface.vars.as_slice();
        let main = PartFirsts::of(alloc, sizes, main_part(&block.kind), vars)?;
        let temporary = temporary_of(alloc, sizes, block)?;
        Ok(BlockFirsts { main, temporary })
    }

    /// The table of a part, if the block has one.
    fn of_part(&self, part: Part) -> Option<&PartFirsts>
        ensures part { IfSome result (λ p. p.now.part ≡ part) }
        ensures fronts { (project : ProjectTree) (vars : List VarTree) → HasFirsts project vars self.now
            → IfSome result (λ p. HasFronts project vars p.now) }
    {
        if self.main.part == part {
            return Some(&self.main);
        }
        match &self.temporary {
            Some(firsts) => {
                if firsts.part == part {
                    Some(firsts)
                } else {
                    None
                }
            }
            None => None,
        }
    }

    /// The variable of this number, if it is of the part and the block has the part's table.
    fn nth<'p>(&self, part: Part, vars: &[Var<'p>], number: usize) -> Option<Laid<'p>>
        ensures { (project : ProjectTree) → HasFirsts project (map var_tree vars.now) self.now
            → IfSome result (λ laid. laid_nth project (counted.test_of part)
            (map var_tree vars.now) number 0 ≡ Some (counted.laid_tree laid)) }
    {
        match self.of_part(part) {
            Some(firsts) => firsts.nth(vars, number),
            None => None,
        }
    }
}

/// Where the variables of the blocks of a project lie.
#[derive(Drop)]
pub struct FirstCells {
    blocks: Vec<BlockFirsts>,
}

impl FirstCells {
    /// Those of the context's project.
    pub fn of(alloc: Global, context: &Context) -> Result<FirstCells, AllocError>
        ensures { (source : Source) → IsContext context.now source
            → IfOk result (λ f. AreFirsts f source.project) }
    {
        let mut blocks = Vec::new(alloc);
        for entry in context.scope.tables.entries() {
            blocks.push(BlockFirsts::of(alloc, context.sizes, entry.block())?)?;
        }
        Ok(FirstCells { blocks })
    }

    /// The variable of this number of the block of that number, if it is of the part and the block has the part's table.
    pub(crate) fn nth<'p>(
        &self,
        block: usize,
        part: Part,
        vars: &[Var<'p>],
        number: usize,
    ) -> Option<Laid<'p>>
        ensures { (project : ProjectTree) (b : BlockTree) → AreFirsts self.now project
            → slice_get project.blocks block ≡ Some b → map var_tree vars.now ≡ b.vars
            → IfSome result (λ laid. laid_nth project (counted.test_of part) b.vars number 0
            ≡ Some (counted.laid_tree laid)) }
    {
        match self.blocks.as_slice().get(block) {
            Some(firsts) => firsts.nth(part, vars, number),
            None => None,
        }
    }
}
