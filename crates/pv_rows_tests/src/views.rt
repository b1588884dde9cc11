//! Declarations that are built here are seen as the plain data that they mean.
ghost use Rattle.std.specs.Prelude.{◌≡◌, IfOk, map, None};
ghost use Rattle.pv_types.specs.Tree.{plain, array, structure, var, no_vars, _then_};
ghost use Rattle.pv_types.specs.View.{
  type_tree,
  vars_tree,
  var_trees,
  listed,
};

use pv_place::Place;
use pv_types::{DeclType, Literal, Name, Section, Vars};
use pv_word::Ty;
use std::alloc::{AllocError, Global};

fn plain_vars(names: Vec<(Name, Place)>, section: Section, ty: Ty, start: Option<Literal>) -> Vars
    ensures { vars_tree result ≡ map (λ w. var w.0 section (plain ty) start w.1) names.items }
{
    Vars {
        names,
        section,
        ty: DeclType::Plain(ty),
        start,
    }
}

fn structure_type(vars: Vec<Vars>) -> DeclType
    ensures { type_tree result ≡ structure (listed (var_trees vars.items)) }
{
    DeclType::Struct(vars)
}

fn two_fields(
    alloc: Global,
    name: Name,
    other: Name,
    section: Section,
    ty: Ty,
    place: Place,
) -> Result<DeclType, AllocError>
    ensures { IfOk result (λ made. type_tree made
        ≡ structure (_then_ (var name section (plain ty) None place)
        (_then_ (var other section (plain ty) None place) no_vars))) }
{
    let names = vec![in alloc; (name, place), (other, place)]?;
    let vars = vec![in alloc; plain_vars(names, section, ty, None)]?;
    Ok(DeclType::Struct(vars))
}

fn array_type(
    alloc: Global,
    low: i128,
    high: i128,
    of: DeclType,
    place: Place,
) -> Result<DeclType, AllocError>
    ensures { IfOk result (λ made. type_tree made ≡ array low high (type_tree of) place) }
{
    let of = Box::new(alloc, of)?;
    Ok(DeclType::Array {
        low,
        high,
        of,
        place,
    })
}
