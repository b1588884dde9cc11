//! A block with the table of its variables.
ghost use Rattle.std.specs.Prelude.{◌≡◌, ◌↔◌, None, IsTrue, map, option_map};
ghost use Rattle.std.proofs.Props.{props};
ghost use Rattle.pv_names.specs.DeclarationSets.{declarations-are-a-set};
ghost use Rattle.pv_types.specs.View.{var_tree, var_trees};
ghost use Rattle.pv_names.specs.Firsts.{FindsFirsts};
ghost use Rattle.pv_names.specs.Needed.{needed_among};
ghost use Rattle.pv_names.specs.Params.{sole_input};
ghost use Rattle.pv_names.specs.Unique.{HaveUniqueNames};
ghost use Rattle.pv_names.specs.Doubled.{FindsDoubled};

use crate::doubled::{Doubled, Part, is_of};
use crate::firsts::Firsts;
use crate::needed::{needed_among, sole_input};
use pv_tree::Block;
use pv_types::{Name, Var, one_by_one};
use std::alloc::{AllocError, Global};

/// A block with the table of its variables.
#[derive(Drop)]
pub struct Entry<'p> {
    pub block: &'p Block,
    vars: Vec<Var<'p>>,
    numbers: Firsts,
    needed: Vec<Var<'p>>,
    sole: Option<Var<'p>>,
    unique: bool,
    doubled: Doubled,
    ghost all: { map var_tree vars.items ≡ var_trees block.now.interface.vars.items } by { Prim.hlevel (props, declarations-are-a-set) },
    ghost by_name: { FindsFirsts numbers (map (λ v. v.name.now.key) vars.items) },
    ghost all_needed: { map var_tree needed.items ≡ needed_among block.now.kind (map var_tree vars.items) } by { Prim.hlevel (props, declarations-are-a-set) },
    ghost one_input: { option_map var_tree sole ≡ sole_input None (map var_tree vars.items) } by { Prim.hlevel (props, declarations-are-a-set) },
    ghost apart: { IsTrue unique ↔ HaveUniqueNames (var_trees block.now.interface.vars.items) },
    ghost by_part: { FindsDoubled doubled unique (map var_tree vars.items) },
}

impl<'p> Entry<'p> {
    ghost use Rattle.std.specs.Prelude.{IfOk, slice_get, bytes_eq, find, if◌then◌else◌};
    ghost use Rattle.pv_types.specs.View.{var_tree, name_of};
    ghost use Rattle.pv_tree.specs.View.{block_tree};
    ghost use Rattle.pv_tree.specs.Scopes.{first_var};
    ghost use Rattle.pv_names.specs.Entries.{block_of};
    ghost use Rattle.pv_names.specs.Firsts.{first_number};
    ghost use Rattle.pv_names.specs.Doubled.{is_sought};

    /// The block with its table.
    pub fn of(alloc: Global, block: &'p Block) -> Result<Entry<'p>, AllocError>
        ensures { IfOk result (λ e. block_of e ≡ block_tree block.now) }
    {
        let vars = one_by_one(alloc, block.interface.vars.as_slice())?;
        let (numbers, unique) = Firsts::of_vars(alloc, vars.as_slice())?;
        let needed = needed_among(alloc, &block.kind, vars.as_slice())?;
        let sole = sole_input(vars.as_slice());
        let doubled = Doubled::of(alloc, unique, vars.as_slice())?;
        Ok(Entry {
            block,
            vars,
            numbers,
            needed,
            sole,
            unique,
            doubled,
        })
    }

    /// The block.
    pub fn block(&self) -> &'p Block
        ensures { block_tree result.now ≡ block_of self.now }
    {
        self.block
    }

    /// The variables of the block, one by one.
    pub fn vars(&self) -> &[Var<'p>]
        ensures { map var_tree result.now ≡ (block_of self.now).vars }
    {
        self.vars.as_slice()
    }

    /// Those of the variables that each call of the block has to give, in their order.
    pub fn needed(&self) -> &[Var<'p>]
        ensures { map var_tree result.now ≡ needed_among (block_of self.now).kind (block_of self.now).vars }
    {
        self.needed.as_slice()
    }

    /// The only input among the variables.
    pub(crate) fn sole_input(&self) -> Option<Var<'p>>
        ensures { option_map var_tree result ≡ sole_input None (block_of self.now).vars }
    {
        self.sole
    }

    /// Whether no two of the variables have one name.
    pub fn has_unique_names(&self) -> bool
        ensures { IsTrue result ↔ HaveUniqueNames (block_of self.now).vars }
    {
        self.unique
    }

    /// The number of the first variable of this name that the block declares.
    pub fn number_of(&self, name: &Name) -> Option<usize>
        ensures { result ≡ first_number (bytes_eq name.now.key)
            (map (λ v. (name_of v).key) (block_of self.now).vars) }
    {
        self.numbers.find(name)
    }

    /// The variable of this number.
    fn at(&self, number: usize) -> Option<Var<'p>>
        ensures { result ≡ slice_get self.now.vars.items number }
    {
        match self.vars.as_slice().get(number) {
            Some(var) => Some(*var),
            None => None,
        }
    }

    /// The first variable of this name that the block declares.
    pub fn find(&self, name: &Name) -> Option<Var<'p>>
        ensures { option_map var_tree result
            ≡ first_var (block_of self.now).vars name.now.key }
    {
        match self.numbers.find(name) {
            Some(number) => self.at(number),
            None => None,
        }
    }

    /// The first of a part that has this name, where the first variable of the name is none of the part.
    fn behind_first(&self, part: Part, name: &Name) -> Option<Var<'p>>
        ensures { option_map var_tree result ≡ (if self.now.unique then None
            else find (is_sought part name.now.key) (block_of self.now).vars) }
    {
        match self.doubled.find(part, name) {
            Some(number) => self.at(number),
            None => None,
        }
    }

    /// The first variable of this name that is of a part of those that the block declares.
    pub(crate) fn find_of(&self, part: Part, name: &Name) -> Option<Var<'p>>
        ensures { option_map var_tree result
            ≡ find (is_sought part name.now.key) (block_of self.now).vars }
    {
        match self.find(name) {
            Some(var) => {
                if is_of(part, var.of.section) {
                    return Some(var);
                }
                self.behind_first(part, name)
            }
            None => None,
        }
    }
}
