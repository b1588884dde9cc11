//! The search for the sizes of the named types of a project.
//!
//! Each type is laid out once. A list takes the place of recursion, so types may stand inside one another as often as a project is
//! long: a type is entered, those that it names are put before it, and when these are known it is left with the sum of its variables.
//! What is to be left is never left too early: each type that it names is known, or stands before it in the list.
ghost use Rattle.std.specs.Prelude.{◌≡◌, ◌++◌, ℕ, List, [], ◌∷◌, OnOk, IfOk, IfSome, IfNone, None, map, length};
ghost use Rattle.pv_types.specs.View.{type_tree, vars_tree, var_trees, listed};
ghost use Rattle.pv_types.specs.Named.{types_of, AllNamed, AllNamedIn};
ghost use Rattle.pv_types.specs.Sizes.{size_of_named};
ghost use Rattle.pv_tree.specs.View.{block_tree};
ghost use Rattle.pv_mean.specs.Counts.{capped, known_in, size_known};
ghost use Rattle.pv_mean.specs.Visits.{visit_of, visits_of, enter, leave, enters_in, enters_in_vars, seed_of, seeds_of, AddsEnters, AllNest, IsOpen, Goes, Steps};

use crate::known::Known;
use crate::types::is_type;
use pv_tree::Block;
use pv_types::{DeclType, Name, Types, Vars};
use std::alloc::{AllocError, Global};

/// What is to be done.
#[derive(Drop)]
pub(crate) enum Task<'p> {
    /// The type of this name is entered.
    Enter(&'p Name),
    /// The type of this name, which has these variables, is left.
    Leave { name: &'p Name, vars: &'p [Vars] },
}

/// A search: the types, the sizes that are known, and what is to be done, the next of it last.
#[derive(Drop)]
pub(crate) struct Sizing<'p> {
    types: Types<'p>,
    known: Known,
    tasks: Vec<Task<'p>>,
}

/// Puts the types that a type names behind the others, once where fields share it.
#[cycle(naming)]
fn add_names<'p>(tasks: &mut Vec<Task<'p>>, ty: &'p DeclType) -> Result<(), AllocError>
    ensures { OnOk result (AddsEnters (visits_of tasks.old.items) (visits_of tasks.new.items)
        (λ P. AllNamed P (type_tree ty.now)) (enters_in (type_tree ty.now))) }
{
    match ty {
        DeclType::Array { of, .. } => add_names(tasks, of),
        DeclType::Struct(vars) => add_names_of(tasks, vars.as_slice()),
        DeclType::Named(name, _) => {
            tasks.push(Task::Enter(name))?;
            Ok(())
        }
        DeclType::Plain(_) => Ok(()),
        DeclType::Unread => Ok(()),
    }
}

/// Puts the types that variables which are declared at once name behind the others: once for all of
/// them.
#[cycle(naming)]
fn add_shared<'p>(tasks: &mut Vec<Task<'p>>, of: &'p Vars) -> Result<(), AllocError>
    ensures { OnOk result (AddsEnters (visits_of tasks.old.items) (visits_of tasks.new.items)
        (λ P. AllNamedIn P (listed (vars_tree of.now)))
        (enters_in_vars (listed (vars_tree of.now)))) }
{
    if of.names.is_empty() {
        return Ok(());
    }
    add_names(tasks, &of.ty)
}

/// Puts the types that variables name behind the others.
#[cycle(naming)]
fn add_names_of<'p>(tasks: &mut Vec<Task<'p>>, vars: &'p [Vars]) -> Result<(), AllocError>
    ensures { OnOk result (AddsEnters (visits_of tasks.old.items) (visits_of tasks.new.items)
        (λ P. AllNamedIn P (listed (var_trees vars.now)))
        (enters_in_vars (listed (var_trees vars.now)))) }
{
    for of in vars {
        add_shared(tasks, of)?;
    }
    Ok(())
}

/// Puts a block's type behind the others, if it is one.
fn add_type<'p>(tasks: &mut Vec<Task<'p>>, block: &'p Block) -> Result<(), AllocError>
    ensures { OnOk result (visits_of tasks.new.items
        ≡ visits_of tasks.old.items ++ seed_of (block_tree block.now)) }
{
    if is_type(&block.kind) {
        tasks.push(Task::Enter(&block.name))?;
    }
    Ok(())
}

impl<'p> Sizing<'p> {
    /// A search that begins with each type among the blocks.
    pub(crate) fn of(
        alloc: Global,
        types: Types<'p>,
        blocks: &'p [Block],
    ) -> Result<Sizing<'p>, AllocError>
        ensures types { IfOk result (λ s. s.types ≡ types.entry) }
        ensures known { IfOk result (λ s. (key : List ℕ) → known_in s.known key ≡ None) }
        ensures tasks { IfOk result (λ s. visits_of s.tasks.items
            ≡ seeds_of (map block_tree blocks.now)) }
    {
        let mut tasks = Vec::new(alloc);
        for block in blocks {
            add_type(&mut tasks, block)?;
        }
        let known = Known::new(alloc);
        Ok(Sizing {
            types,
            known,
            tasks,
        })
    }

    /// Enters a type, unless it is known.
    fn enter(&mut self, name: &'p Name) -> Result<(), AllocError>
        requires nest { AllNest (types_of self.old.types) }
        requires open { IsOpen (types_of self.old.types) (known_in self.old.known)
            (visits_of self.old.tasks.items ++ enter name.now.key ∷ []) }
        ensures { OnOk result (Goes self.old self.new (enter name.now.key)) }
    {
        if self.known.has(name) {
            return Ok(());
        }
        let Some(vars) = self.types.find(name) else {
            return Ok(());
        };
        self.tasks.push(Task::Leave { name, vars })?;
        add_names_of(&mut self.tasks, vars)?;
        Ok(())
    }

    /// Leaves a type, whose size is known by those that it names.
    fn leave(&mut self, name: &'p Name, vars: &'p [Vars]) -> Result<(), AllocError>
        requires nest { AllNest (types_of self.old.types) }
        requires open { IsOpen (types_of self.old.types) (known_in self.old.known)
            (visits_of self.old.tasks.items ++ leave name.now.key (var_trees vars.now) ∷ []) }
        ensures { OnOk result (Goes self.old self.new (leave name.now.key (var_trees vars.now))) }
    {
        let size = self.known.of_instance(vars);
        self.known.insert(name, size)?;
        Ok(())
    }

    /// Does what is to be done.
    fn take(&mut self, task: Task<'p>) -> Result<(), AllocError>
        requires nest { AllNest (types_of self.old.types) }
        requires open { IsOpen (types_of self.old.types) (known_in self.old.known)
            (visits_of self.old.tasks.items ++ visit_of task ∷ []) }
        ensures { OnOk result (Goes self.old self.new (visit_of task.entry)) }
    {
        match task {
            Task::Enter(name) => self.enter(name),
            Task::Leave { name, vars } => self.leave(name, vars),
        }
    }

    /// Takes the last task off the list.
    fn pop(&mut self) -> Option<Task<'p>>
        ensures some { IfSome result (λ task. self.old.tasks.items
            ≡ self.new.tasks.items ++ task ∷ []) }
        ensures none { IfNone result (self.old.tasks.items ≡ []) }
        ensures nothing { IfNone result (self.new.tasks.items ≡ []) }
        ensures types { self.new.types ≡ self.old.types }
        ensures known { self.new.known ≡ self.old.known }
    {
        let task = self.tasks.pop()?;
        Some(task)
    }

    /// Takes the next step, and says whether there was one to take.
    fn step(&mut self) -> Result<bool, AllocError>
        requires nest { AllNest (types_of self.old.types) }
        requires open { IsOpen (types_of self.old.types) (known_in self.old.known)
            (visits_of self.old.tasks.items) }
        ensures { IfOk result (λ going. Steps self.old self.new going) }
    {
        let Some(task) = self.pop() else {
            return Ok(false);
        };
        self.take(task)?;
        Ok(true)
    }

    /// Takes all steps, and gives the sizes of the types.
    pub(crate) fn run(self) -> Result<Known, AllocError>
        requires nest { AllNest (types_of self.types) }
        requires open { IsOpen (types_of self.types) (known_in self.known)
            (visits_of self.tasks.items) }
        ensures { let types = types_of self.entry.types in
            IfOk result (λ known. (key : List ℕ) → size_known known key
            ≡ capped (size_of_named types (length types) key)) }
    {
        let mut sizing = self;
        while sizing.step()? {}
        Ok(sizing.known)
    }
}
