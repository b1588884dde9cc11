//! Names that are declared twice: within a block, within a structure, and blocks.
//!
//! A name is looked up among those before it, in a table by key, so that each is met once.
ghost use Rattle.std.specs.Prelude.{◌≡◌, ◌++◌, ◌∷◌, List, [], IfOk, OnOk, map};
ghost use Rattle.pv_types.specs.View.{var_trees};
ghost use Rattle.pv_tree.specs.Tree.{PlacedName};
ghost use Rattle.pv_tree.specs.Interfaces.{names_of_vars};
ghost use Rattle.pv_rules_expr.specs.Nearest.{Nears};
ghost use Rattle.pv_rules_expr.specs.Members.{IsLaterBehind};
ghost use Rattle.pv_rules_decl.specs.Doubles.{AreMet, IsMet, name_of_block, name_of_var};

use indexmap::IndexMap;
use pv_edge::Text;
use pv_place::Place;
use pv_rules_expr::nearer;
use pv_tree::Block;
use pv_types::{Name, Var, Vars, one_by_one};
use std::alloc::{AllocError, Global};

/// The names that were met.
#[derive(Drop)]
struct Names {
    seen: IndexMap<Text, ()>,
}

impl Names {
    /// Meets a name, and gives the nearest place of a doubled one.
    fn meet(
        &mut self,
        name: &Name,
        place: &Place,
        nearest: Option<Place>,
    ) -> Result<Option<Place>, AllocError>
        ensures near { IfOk result (λ r. Nears (λ at. IsMet self.old name.now.key × (place.now ≡ at)) nearest r) }
        ensures met { (all : List PlacedName) → AreMet self.old all → OnOk result (AreMet self.new (all ++ (name.now, place.now) ∷ [])) }
    {
        let own = name.key();
        if self.seen.contains_key(own) {
            return Ok(nearer(nearest, place));
        }
        let key = own.clone()?;
        self.seen.insert(key, ())?;
        Ok(nearest)
    }
}

/// Looks at variables one by one.
fn doubled_in(
    alloc: Global,
    vars: &[Var],
    nearest: Option<Place>,
) -> Result<Option<Place>, AllocError>
    ensures { IfOk result (λ r. Nears (IsLaterBehind [] (map name_of_var vars.now)) nearest r) }
{
    let mut names = Names {
        seen: IndexMap::new(alloc),
    };
    let mut nearest = nearest;
    for var in vars {
        nearest = names.meet(var.name, &var.place, nearest)?;
    }
    Ok(nearest)
}

/// Looks at variables that are declared together.
pub(crate) fn doubled_vars(
    alloc: Global,
    vars: &[Vars],
    nearest: Option<Place>,
) -> Result<Option<Place>, AllocError>
    ensures { IfOk result (λ r. Nears (IsLaterBehind [] (names_of_vars (var_trees vars.now))) nearest r) }
{
    let each = one_by_one(alloc, vars)?;
    doubled_in(alloc, each.as_slice(), nearest)
}

/// Looks at blocks.
pub(crate) fn doubled_blocks(
    alloc: Global,
    blocks: &[Block],
    nearest: Option<Place>,
) -> Result<Option<Place>, AllocError>
    ensures { IfOk result (λ r. Nears (IsLaterBehind [] (map name_of_block blocks.now)) nearest r) }
{
    let mut names = Names {
        seen: IndexMap::new(alloc),
    };
    let mut nearest = nearest;
    for block in blocks {
        nearest = names.meet(&block.name, &block.place, nearest)?;
    }
    Ok(nearest)
}
