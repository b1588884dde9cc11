//! The search for a leaf in a declared type.
//!
//! A walk lays out an array element by element, and a named type wherever it is named. Where there
//! is no leaf to be found that could go on for long and give nothing, so what has none is passed
//! over. The search takes each named type once: if none of those that were met has a leaf where at
//! most n types stand inside each other, then by their variables none has one where one more does,
//! and so none at all.
ghost use Rattle.std.specs.Prelude.{◌≡◌, [], false, ℕ, IfOk, OnOk};
ghost use Rattle.pv_types.specs.Named.{types_of};
ghost use Rattle.pv_types.specs.View.{type_tree, vars_tree, var_trees, listed};
ghost use Rattle.pv_types.specs.Walk.{around_view};
ghost use Rattle.pv_types.specs.Sizes.{size_of_type, size_of_vars, size_of_named, HasNoLeaf};
ghost use Rattle.pv_types.specs.Search.{size_of_sought, IsSearch, Covers};

use crate::declaration::{DeclType, Section, Vars};
use crate::name::Name;
use crate::named::Types;
use crate::walk::Around;
use indexmap::IndexMap;
use pv_edge::Text;
use std::alloc::{AllocError, Global};

/// The greatest number of steps of a search; what is searched for so long counts as having a leaf.
const MAX_STEPS: u32 = u32::MAX;

/// What is still to be searched.
#[derive(Drop)]
pub(crate) enum Sought<'p> {
    Element(&'p DeclType),
    Vars { vars: &'p [Vars], around: Around },
}

/// A search: what is still to be searched, and the keys of the named types that were met.
#[derive(Drop)]
pub(crate) struct Search<'p> {
    sought: Vec<Sought<'p>>,
    met: IndexMap<Text, ()>,
}

impl<'p> Search<'p> {
    /// Meets a named type, whose variables are to be searched unless it was met before.
    fn add_named(&mut self, name: &Name, named: &Types<'p>) -> Result<(), AllocError>
        ensures { let types = types_of named.now in OnOk result (Covers types self.old self.new
            (λ n. size_of_named types n name.now.key)) }
    {
        let own = name.key();
        if self.met.contains_key(own) {
            return Ok(());
        }
        let Some(vars) = named.find(name) else {
            return Ok(());
        };
        let key = own.clone()?;
        self.met.insert(key, ())?;
        let around = Around::Instance(Section::Static);
        self.sought.push(Sought::Vars { vars, around })?;
        Ok(())
    }

    /// Whether the type is a leaf itself; else what it has inside is to be searched.
    fn add_type(&mut self, ty: &'p DeclType, named: &Types<'p>) -> Result<bool, AllocError>
        ensures { let types = types_of named.now in IfOk result
            (λ found. found ≡ false → Covers types self.old self.new
            (λ n. size_of_type (size_of_named types n) (type_tree ty.now))) }
    {
        match ty {
            DeclType::Plain(_) => Ok(true),
            DeclType::Array { of, .. } => {
                self.sought.push(Sought::Element(of))?;
                Ok(false)
            }
            DeclType::Struct(vars) => {
                let vars = vars.as_slice();
                let around = Around::Fields(Section::Static);
                self.sought.push(Sought::Vars { vars, around })?;
                Ok(false)
            }
            DeclType::Named(name, _) => {
                self.add_named(name, named)?;
                Ok(false)
            }
            DeclType::Unread => Ok(false),
        }
    }

    /// Whether variables that are declared at once are leaves; else what their type has inside is to
    /// be searched, once for all of them.
    fn add_shared(
        &mut self,
        of: &'p Vars,
        around: Around,
        named: &Types<'p>,
    ) -> Result<bool, AllocError>
        ensures { let types = types_of named.now in IfOk result
            (λ found. found ≡ false → Covers types self.old self.new
            (λ n. size_of_vars (size_of_named types n) (around_view around)
            (listed (vars_tree of.now)))) }
    {
        if of.names.is_empty() {
            return Ok(false);
        }
        match around.section_of(of.section) {
            None => Ok(false),
            Some(_) => self.add_type(&of.ty, named),
        }
    }

    /// Whether a variable of the first declaration is a leaf; else what its type has inside is to be
    /// searched, once for all that share it, and so are the other declarations.
    fn add_vars(
        &mut self,
        vars: &'p [Vars],
        around: Around,
        named: &Types<'p>,
    ) -> Result<bool, AllocError>
        ensures { let types = types_of named.now in IfOk result
            (λ found. found ≡ false → Covers types self.old self.new
            (λ n. size_of_vars (size_of_named types n) (around_view around)
            (listed (var_trees vars.now)))) }
    {
        let Some((of, vars)) = vars.split_first() else {
            return Ok(false);
        };
        self.sought.push(Sought::Vars { vars, around })?;
        self.add_shared(of, around, named)
    }

    /// Whether there is a leaf at the front of what is sought; else the rest is to be searched.
    fn add_first(&mut self, sought: Sought<'p>, named: &Types<'p>) -> Result<bool, AllocError>
        ensures { let types = types_of named.now in IfOk result
            (λ found. found ≡ false → Covers types self.old self.new
            (λ n. size_of_sought (size_of_named types n) sought.entry)) }
    {
        match sought {
            Sought::Element(ty) => self.add_type(ty, named),
            Sought::Vars { vars, around } => self.add_vars(vars, around, named),
        }
    }

    /// Whether a search that has met nothing comes upon a leaf of the type. `true` may also come where there is none, after very
    /// many steps.
    fn finds(&mut self, ty: &'p DeclType, named: &Types<'p>) -> Result<bool, AllocError>
        requires { self.old.met.entries ≡ [] }
        ensures { IfOk result (λ found. found ≡ false → HasNoLeaf (types_of named.now) (type_tree ty.now)) }
    {
        if self.add_type(ty, named)? {
            return Ok(true);
        }
        for _ in 0..MAX_STEPS {
            let Some(sought) = self.sought.pop() else {
                return Ok(false);
            };
            if self.add_first(sought, named)? {
                return Ok(true);
            }
        }
        Ok(true)
    }
}

/// Whether a type has a leaf. `true` may also come where it has none, after very many steps.
pub(crate) fn has_leaf<'p>(
    alloc: Global,
    ty: &'p DeclType,
    named: &Types<'p>,
) -> Result<bool, AllocError>
    ensures { IfOk result (λ found. found ≡ false
        → HasNoLeaf (types_of named.now) (type_tree ty.now)) }
{
    let mut search = Search {
        sought: Vec::new(alloc),
        met: IndexMap::new(alloc),
    };
    search.finds(ty, named)
}
