//! The sizes of named types that are known, and what has a size by them.
ghost use Rattle.std.specs.Prelude.{◌≡◌, ◌*◌, length, is_some, Some, None, ℕ, List, OnOk, bytes_eq, if◌then◌else◌};
ghost use Rattle.pv_tree.specs.Scopes as scopes;
ghost use Rattle.pv_types.specs.declared.declaration.Section.TheVariants.{Static};
ghost use Rattle.pv_types.specs.View.{type_tree, vars_tree, var_trees, listed};
ghost use Rattle.pv_types.specs.Leaves.{instance, section_within};
ghost use Rattle.pv_types.specs.Sizes.{number_where, size_of_type, size_of_fields, size_of_vars};
ghost use Rattle.pv_mean.specs.Counts.{capped, known_in, size_known};

use crate::count::{BEYOND, count_between, count_of, product, sum};
use indexmap::IndexMap;
use pv_edge::Text;
use pv_types::{DeclType, Name, Section, Vars};
use std::alloc::{AllocError, Global};

/// Sizes of named types, by the types' names.
#[derive(Drop)]
pub(crate) struct Known {
    sizes: IndexMap<Text, u32>,
}

/// Whether an instance has the variables of a section.
pub(crate) fn is_of_instance(section: Section) -> bool
    ensures { result ≡ scopes.is_of_instance section }
{
    match section {
        Section::Input | Section::Output | Section::InOut | Section::Static => true,
        Section::Temp | Section::Const => false,
    }
}

impl Known {
    /// None is known.
    pub(crate) fn new(alloc: Global) -> Known
        ensures { (key : List ℕ) → known_in result key ≡ None }
    {
        Known {
            sizes: IndexMap::new(alloc),
        }
    }

    /// Whether the size of the type of this name is known.
    pub(crate) fn has(&self, name: &Name) -> bool
        ensures { result ≡ is_some (known_in self.now name.now.key) }
    {
        self.sizes.contains_key(name.key())
    }

    /// The size of the type of this name, or 0 where it isn't known.
    pub(crate) fn find(&self, name: &Name) -> u32
        ensures { result ≡ capped (size_known self.now name.now.key) }
    {
        match self.sizes.get(name.key()) {
            Some(size) => (*size).min(BEYOND),
            None => 0,
        }
    }

    /// The size of the type of this name is known to be this.
    pub(crate) fn insert(&mut self, name: &Name, size: u32) -> Result<(), AllocError>
        ensures { OnOk result ((key : List ℕ) → known_in self.new key
            ≡ (if bytes_eq key name.now.key then Some size else known_in self.old key)) }
    {
        let key = name.key().clone()?;
        self.sizes.insert(key, size)?;
        Ok(())
    }

    /// The size of a type.
    pub(crate) fn of_type(&self, ty: &DeclType) -> u32
        ensures { result ≡ capped (size_of_type (size_known self.now) (type_tree ty.now)) }
    {
        match ty {
            DeclType::Plain(_) => 1,
            DeclType::Array { low, high, of, .. } => {
                product(count_between(low, high), self.of_type(of))
            }
            DeclType::Struct(vars) => {
                let mut total = 0;
                for of in vars {
                    total = sum(total, product(count_of(of), self.of_type(&of.ty)));
                }
                total
            }
            DeclType::Named(name, _) => self.find(name),
            DeclType::Unread => 0,
        }
    }

    /// The size of the fields of a structure.
    pub(crate) fn of_fields(&self, vars: &[Vars]) -> u32
        ensures { result ≡ capped (size_of_fields (size_known self.now)
            (listed (var_trees vars.now))) }
    {
        let mut total = 0;
        for of in vars {
            total = sum(total, product(count_of(of), self.of_type(&of.ty)));
        }
        total
    }

    /// The size that variables which are declared at once have in an instance.
    fn of_part(&self, of: &Vars) -> u32
        ensures { result ≡ capped (length (vars_tree of.now)
            * number_where (section_within (instance Static) of.now.section)
            (size_of_type (size_known self.now) (type_tree of.now.ty))) }
    {
        if is_of_instance(of.section) {
            product(count_of(of), self.of_type(&of.ty))
        } else {
            0
        }
    }

    /// The size of an instance with these variables.
    pub(crate) fn of_instance(&self, vars: &[Vars]) -> u32
        ensures { result ≡ capped (size_of_vars (size_known self.now) (instance Static)
            (listed (var_trees vars.now))) }
    {
        let mut total = 0;
        for of in vars {
            total = sum(total, self.of_part(of));
        }
        total
    }
}
