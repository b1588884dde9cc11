//! All types and all variables that a block declares, those within structures and arrays too.
//!
//! The rules on declarations look at each of them by itself, so they are gathered once. What variables share is there once for
//! all of them, and so is what lies in it: a rule is broken in these lists where it is in those of all types and all variables.
ghost use Rattle.std.specs.Prelude.{◌≡◌, ◌++◌, OnOk, IfOk};
ghost use Rattle.pv_types.specs.View.{type_tree, vars_tree, var_trees, listed};
ghost use Rattle.pv_tree.specs.Interfaces.{types_in, types_in_vars, fields_in, vars_in, all_types, all_vars};
ghost use Rattle.pv_rules_decl.specs.Declarations.{types_of, vars_of, HaveTheSame};

use pv_types::{DeclType, Vars};
use std::alloc::{AllocError, Global};

/// The types and the variables, each before what lies in it.
#[derive(Drop)]
pub(crate) struct Gathered<'p> {
    pub(crate) types: Vec<&'p DeclType>,
    pub(crate) vars: Vec<&'p Vars>,
}

impl<'p> Gathered<'p> {
    /// Adds a type with those in it, and the fields in it.
    #[cycle(gathering)]
    fn add_type(&mut self, ty: &'p DeclType) -> Result<(), AllocError>
        ensures types { OnOk result (HaveTheSame (types_of self.new)
            (types_of self.old ++ types_in (type_tree ty.now))) }
        ensures vars { OnOk result (HaveTheSame (vars_of self.new)
            (vars_of self.old ++ fields_in (type_tree ty.now))) }
    {
        self.types.push(ty)?;
        match ty {
            DeclType::Array { of, .. } => self.add_type(of),
            DeclType::Struct(vars) => self.add_vars(vars.as_slice()),
            DeclType::Plain(_) => Ok(()),
            DeclType::Named(_, _) => Ok(()),
            DeclType::Unread => Ok(()),
        }
    }

    /// Adds variables that are declared at once, with what lies in them: their type once for all.
    #[cycle(gathering)]
    fn add_shared(&mut self, of: &'p Vars) -> Result<(), AllocError>
        ensures types { OnOk result (HaveTheSame (types_of self.new)
            (types_of self.old ++ types_in_vars (listed (vars_tree of.now)))) }
        ensures vars { OnOk result (HaveTheSame (vars_of self.new)
            (vars_of self.old ++ vars_in (listed (vars_tree of.now)))) }
    {
        if of.names.is_empty() {
            return Ok(());
        }
        self.vars.push(of)?;
        self.add_type(&of.ty)
    }

    /// Adds variables with what lies in them.
    #[cycle(gathering)]
    fn add_vars(&mut self, vars: &'p [Vars]) -> Result<(), AllocError>
        ensures types { OnOk result (HaveTheSame (types_of self.new)
            (types_of self.old ++ types_in_vars (listed (var_trees vars.now)))) }
        ensures vars { OnOk result (HaveTheSame (vars_of self.new)
            (vars_of self.old ++ vars_in (listed (var_trees vars.now)))) }
    {
        for of in vars {
            self.add_shared(of)?;
        }
        Ok(())
    }

    /// Those of a block's variables.
    pub(crate) fn of(alloc: Global, vars: &'p [Vars]) -> Result<Gathered<'p>, AllocError>
        ensures types { IfOk result (λ d. HaveTheSame (types_of d) (all_types (var_trees vars.now))) }
        ensures vars { IfOk result (λ d. HaveTheSame (vars_of d) (all_vars (var_trees vars.now))) }
    {
        let mut gathered = Gathered {
            types: Vec::new(alloc),
            vars: Vec::new(alloc),
        };
        gathered.add_vars(vars)?;
        Ok(gathered)
    }
}
