//! Named types: the variables of function blocks and of named structures, found by the type's name.
ghost use Rattle.std.specs.Prelude.{◌≡◌, [], IfOk, OnErr, option_map, length};
ghost use Rattle.pv_types.specs.Named.{look_up, types_of, with_type};
ghost use Rattle.pv_types.specs.View.{var_trees};

use crate::declaration::Vars;
use crate::name::Name;
use indexmap::IndexMap;
use pv_edge::Text;
use std::alloc::{AllocError, Global};

/// The named types with their variables, which contracts see as their list.
#[derive(Drop)]
pub struct Types<'p> {
    types: IndexMap<Text, &'p [Vars]>,
}

impl<'p> Types<'p> {
    /// No types.
    pub fn new(alloc: Global) -> Types<'p>
        ensures { types_of result ≡ [] }
    {
        Types {
            types: IndexMap::new(alloc),
        }
    }

    /// How many types there are.
    pub fn len(&self) -> usize
        ensures { result ≡ length (types_of self.now) }
    {
        self.types.len()
    }

    /// Puts a type behind the others, unless there is one of its name.
    pub fn push(&mut self, name: &Name, vars: &'p [Vars]) -> Result<(), AllocError>
        ensures pushed { IfOk result (λ _. types_of self.new ≡ with_type (types_of self.old)
            (record { key = name.now.key; vars = var_trees vars.now })) }
        ensures unchanged { OnErr result (types_of self.new ≡ types_of self.old) }
    {
        let own = name.key();
        if self.types.contains_key(own) {
            return Ok(());
        }
        let key = own.clone()?;
        self.types.insert(key, vars)?;
        Ok(())
    }

    /// The variables of the type of this name.
    pub fn find(&self, name: &Name) -> Option<&'p [Vars]>
        ensures { option_map (λ vars. var_trees vars.now) result
            ≡ look_up (types_of self.now) name.now.key }
    {
        match self.types.get(name.key()) {
            Some(vars) => Some(*vars),
            None => None,
        }
    }
}
