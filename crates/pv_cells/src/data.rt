//! The cells of data blocks, with the values that the blocks give to them.
ghost use Rattle.std.specs.Prelude.{◌≡◌, ◌∷◌, [], ◌++◌, ◌≤◌, pos, neg_ℤ, true, None, IfSome, IfNone, List, Option, length, map, flat_map, option_map, option_and_then, IfOk, OnOk};
ghost use Rattle.pv_tree.specs.Scopes.{type_named, is_of_instance};
ghost use Rattle.pv_tree.specs.Parts.{starts_of};
ghost use Rattle.pv_tree.specs.View.{step_tree, steps_of, operand_tree, start_tree, body_tree};
ghost use Rattle.pv_mean.specs.Layout as layout;
ghost use Rattle.pv_mean.specs.LaidOut.{laid_tree, capped_laid};
ghost use Rattle.pv_mean.specs.Cells as table;
ghost use Rattle.pv_names.specs.Entries.{block_of};
ghost use Rattle.pv_names.specs.Sorts.{number_value};
ghost use Rattle.pv_cells.specs.Planned.{planned, IsPlan};
ghost use Rattle.pv_types.specs.View.{vars_tree};
ghost use Rattle.pv_tree.specs.Scopes.{ProjectTree};
ghost use Rattle.pv_cells.specs.Starts.{same_laid, data_var};

use crate::copies::data_variable;
use crate::plan::Plan;
use crate::variables::{Form, push_declared};
use pv_mean::{Cell, Laid, Part};
use pv_names::{Entry, Number, Scope, literal_of};
use pv_tree::{BlockKind, Body, Operand, Root, Step};
use pv_types::{DeclType, Literal, MAX_LEAVES, Name, Vars};
use std::alloc::{AllocError, Global};

/// Gives the cell of this number, if there is one, another start value.
fn set_at(cells: &mut [Cell], n: usize, value: i128)
    ensures { cells.new ≡ table.with_start_at cells.old n value }
{
    if n < cells.len() {
        let cell = &mut cells[n];
        cell.start = value;
    }
}

/// Gives the cell of what is laid out, if there is one, another start value.
fn set_start(cells: &mut [Cell], laid: Option<Laid>, value: i128)
    ensures { cells.new ≡ table.with_start cells.old (option_map laid_tree laid.entry) value }
{
    match laid {
        Some(laid) => set_at(cells, laid.first as usize, value),
        None => {}
    }
}

/// A number with the other sign, where it has one.
fn turn_round(value: &i128) -> Option<i128>
    ensures some { IfSome result (λ v. v ≡ neg_ℤ value.now) }
    ensures none { IfNone result (neg_ℤ value.now
        ≡ pos 170141183460469231731687303715884105728) }
{
    if *value == i128::MIN {
        None
    } else {
        Some(-*value)
    }
}

/// No array has an element of an index that is greater than any bound.
fn no_element<'p>(laid: &Laid<'p>) -> Option<Laid<'p>>
    ensures none { result ≡ None }
    ensures past { (project : ProjectTree) → layout.element_laid project (laid_tree laid.now)
        (pos 170141183460469231731687303715884105728) ≡ None }
{
    if let DeclType::Array { high, .. } = laid.ty {
        let _high = *high;
    }
    None
}

impl<'p> Plan<'p> {
    /// The part of this name in the type of that name.
    fn field_of_type(&self, entry: &'p Entry<'p>, type_name: &Name, name: &Name) -> Option<Laid<'p>>
        requires { IsPlan self.now }
        ensures { option_map laid_tree result
            ≡ option_map capped_laid (layout.field_among (planned self.now) is_of_instance
            (type_named (planned self.now) type_name.now.key) name.now.key 0) }
    {
        let scope = Scope {
            tables: self.tables,
            entry,
        };
        match scope.find_type(type_name) {
            Some(found) => {
                let vars = found.block().interface.vars.as_slice();
                self.sizes.variable(vars, Part::Instance, name, 0)
            }
            None => None,
        }
    }

    /// The part of this name in a data block, whose first cell counts as 0.
    fn field_of_data(&self, entry: &'p Entry<'p>, name: &Name) -> Option<Laid<'p>>
        requires { IsPlan self.now }
        ensures { option_map laid_tree result ≡ option_map capped_laid (layout.field_laid
            (planned self.now) (record { ty = layout.data_type (block_of entry.now); first = 0 })
            name.now.key) }
    {
        let block = entry.block();
        match &block.kind {
            BlockKind::Db { of: None } => {
                let vars = block.interface.vars.as_slice();
                self.sizes.variable(vars, Part::Fields, name, 0)
            }
            BlockKind::Db {
                of: Some((type_name, _)),
            } => self.field_of_type(entry, type_name, name),
            BlockKind::Fb => None,
            BlockKind::Fc => None,
            BlockKind::Ob => None,
            BlockKind::Udt => None,
        }
    }

    /// What the root of a start value's name leads to.
    fn root_of_start(&self, entry: &'p Entry<'p>, root: &Root) -> Option<Laid<'p>>
        requires { IsPlan self.now }
        ensures { option_map laid_tree result ≡ option_map capped_laid (table.started_from
            (planned self.now) (layout.data_type (block_of entry.now)) root.now) }
    {
        match root {
            Root::Local { name, .. } => self.field_of_data(entry, name),
            Root::Named(_) => None,
            Root::Area { .. } => None,
        }
    }

    /// The element at a literal index.
    fn element_at(&self, laid: &Laid<'p>, index: Number) -> Option<Laid<'p>>
        requires { IsPlan self.now }
        ensures { option_map laid_tree result ≡ option_map capped_laid (layout.element_laid
            (planned self.now) (laid_tree laid.now) (number_value index)) }
    {
        if !index.negated {
            return self.sizes.element(laid, &index.value);
        }
        match turn_round(&index.value) {
            Some(value) => self.sizes.element(laid, &value),
            None => no_element(laid),
        }
    }

    /// What a step leads to.
    fn at_step(&self, laid: &Laid<'p>, step: &Step) -> Option<Laid<'p>>
        requires { IsPlan self.now }
        ensures { option_map laid_tree result ≡ option_map capped_laid (layout.laid_at_step
            (planned self.now) (laid_tree laid.now) (step_tree step.now)) }
    {
        match step {
            Step::Field(name, _) => self.sizes.field(laid, name),
            Step::Index(e, _) => match literal_of(e) {
                Some(written) => self.element_at(laid, written.number),
                None => None,
            },
        }
    }

    /// What a step behind what there is leads to.
    fn behind(&self, laid: Option<Laid<'p>>, step: &Step) -> Option<Laid<'p>>
        requires { IsPlan self.now }
        ensures { option_map laid_tree result ≡ option_map capped_laid (option_and_then
            (λ l. layout.laid_at_step (planned self.now) l (step_tree step.now))
            (option_map laid_tree laid.entry)) }
    {
        match laid {
            Some(laid) => self.at_step(&laid, step),
            None => None,
        }
    }

    /// What steps behind what there is lead to.
    fn all_behind(&self, laid: Option<Laid<'p>>, steps: &[Step]) -> Option<Laid<'p>>
        requires { IsPlan self.now }
        ensures { same_laid (option_map laid_tree result) (layout.laid_behind (planned self.now)
            (option_map laid_tree laid.entry) (steps_of (map step_tree steps.now))) }
    {
        let mut so_far = laid;
        for step in steps {
            so_far = self.behind(so_far, step);
        }
        so_far
    }

    /// What the name of a start value leads to.
    fn started(&self, entry: &'p Entry<'p>, operand: &Operand) -> Option<Laid<'p>>
        requires { IsPlan self.now }
        ensures { same_laid (option_map laid_tree result) (table.started (planned self.now)
            (layout.data_type (block_of entry.now)) (operand_tree operand.now)) }
    {
        let root = self.root_of_start(entry, &operand.root);
        self.all_behind(root, operand.steps.as_slice())
    }

    /// Gives the cells of a data block the values that it gives to its parts.
    fn set_starts(&self, entry: &'p Entry<'p>, cells: &mut [Cell], starts: &[(Operand, Literal)])
        requires plan { IsPlan self.now }
        requires few { length cells.old ≤ MAX_LEAVES }
        ensures { cells.new ≡ table.with_starts (planned self.now) (layout.data_type
            (block_of entry.now)) (map start_tree starts.now) cells.old }
    {
        for start in starts {
            let laid = self.started(entry, &start.0);
            set_start(cells, laid, start.1.value);
        }
    }

    /// Gives the cells of a data block the values that its body gives to its parts.
    fn set_starts_of(&self, entry: &'p Entry<'p>, cells: &mut [Cell], body: &Body)
        requires plan { IsPlan self.now }
        requires few { length cells.old ≤ MAX_LEAVES }
        ensures { cells.new ≡ table.with_starts (planned self.now) (layout.data_type
            (block_of entry.now)) (starts_of (body_tree body.now)) cells.old }
    {
        match body {
            Body::Starts(starts) => self.set_starts(entry, cells, starts.as_slice()),
            Body::Scl(_) => {}
            Body::Stl(_) => {}
        }
    }

    /// The cells of a data block, which is this variable.
    fn held_cells(
        &self,
        alloc: Global,
        entry: &'p Entry<'p>,
        held: &Vars,
    ) -> Result<Vec<Cell>, AllocError>
        requires plan { IsPlan self.now }
        requires kind { layout.is_db (block_of entry.now).kind ≡ true }
        requires held { vars_tree held.now ≡ data_var (block_of entry.now) ∷ [] }
        requires few { length (table.data_cells (planned self.now) (block_of entry.now)) ≤ MAX_LEAVES }
        ensures { IfOk result (λ v. v.items
            ≡ table.data_cells (planned self.now) (block_of entry.now)) }
    {
        let mut cells = Vec::new(alloc);
        push_declared(alloc, &mut cells, &self.types, held, Form::Visible)?;
        self.set_starts_of(entry, cells.as_mut_slice(), &entry.block().body);
        Ok(cells)
    }

    /// The cells of a block, if it is a data block.
    fn data_cells(&self, alloc: Global, entry: &'p Entry<'p>) -> Result<Vec<Cell>, AllocError>
        requires plan { IsPlan self.now }
        requires few { length (table.data_cells (planned self.now) (block_of entry.now)) ≤ MAX_LEAVES }
        ensures { IfOk result (λ v. v.items
            ≡ table.data_cells (planned self.now) (block_of entry.now)) }
    {
        let found = data_variable(alloc, entry.block())?;
        match found {
            Some(held) => self.held_cells(alloc, entry, &held),
            None => Ok(Vec::new(alloc)),
        }
    }

    /// Puts the cells of all data blocks behind others.
    pub(crate) fn push_data(&self, alloc: Global, cells: &mut Vec<Cell>) -> Result<(), AllocError>
        requires plan { IsPlan self.now }
        requires few { length (flat_map (table.data_cells (planned self.now)) (planned self.now).blocks)
            ≤ MAX_LEAVES }
        ensures { OnOk result (cells.new.items ≡ cells.old.items
            ++ flat_map (table.data_cells (planned self.now)) (planned self.now).blocks) }
    {
        let entries = self.tables.entries();
        for entry in entries {
            let mut own = self.data_cells(alloc, entry)?;
            cells.append(&mut own)?;
        }
        Ok(())
    }
}
