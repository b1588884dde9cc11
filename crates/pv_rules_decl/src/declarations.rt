//! Rules on single declarations: arrays that can't be laid out, variables of DATE_AND_TIME, start values out of range.
//!
//! Each function is given the nearest place so far and looks at one thing more; the lists of a block's types and variables come from `gathered`.
ghost use Rattle.std.specs.Prelude.{◌≡◌, ◌&&◌, not, IsTrue, flat_map, map};
ghost use Rattle.pv_types.specs.View.{type_tree, vars_tree, place_of};
ghost use Rattle.pv_tree.specs.LiteralTypes.{holds};
ghost use Rattle.pv_tree.specs.Scopes.{is_ob};
ghost use Rattle.pv_tree.specs.Things.{is_date};
ghost use Rattle.pv_tree.specs.Rules.Arrays.{is_array, is_wrong_array, IsWrongType};
ghost use Rattle.pv_tree.specs.Rules.Misfits.{is_temporary};
ghost use Rattle.pv_rules_expr.specs.Members.{HasSome};
ghost use Rattle.pv_rules_expr.specs.Nearest.{Nears};
ghost use Rattle.pv_rules_decl.specs.OnDeclarations.{IsMisplacedDate};

use pv_names::is_date;
use pv_place::Place;
use pv_rules_expr::nearer;
use pv_tree::BlockKind;
use pv_types::{DeclType, Section, Vars};
use pv_word::Ty;

/// Whether the type holds the value.
pub(crate) fn holds(ty: Ty, value: i128) -> bool
    ensures { result ≡ holds ty value }
{
    pv_word::least(ty) <= value && value <= pv_word::greatest(ty)
}

/// Whether a type is an array.
fn is_array(ty: &DeclType) -> bool
    ensures { result ≡ is_array (type_tree ty.now) }
{
    matches!(ty, DeclType::Array { .. })
}

/// Whether an array can't be laid out.
fn is_wrong_array(low: i128, high: i128, of: &DeclType) -> bool
    ensures { result ≡ is_wrong_array low high (type_tree of.now) }
{
    if high < low || !holds(Ty::Dint, low) || !holds(Ty::Dint, high) {
        return true;
    }
    high - low >= 10_000 || is_array(of)
}

/// Looks at a type.
fn wrong_array(ty: &DeclType, nearest: Option<Place>) -> Option<Place>
    ensures { Nears (λ at. IsWrongType at (type_tree ty.now)) nearest result }
{
    let DeclType::Array {
        low,
        high,
        of,
        place,
    } = ty
    else {
        return nearest;
    };
    if is_wrong_array(*low, *high, of) {
        return nearer(nearest, place);
    }
    nearest
}

/// Looks at types.
pub(crate) fn wrong_arrays(types: &[&DeclType], nearest: Option<Place>) -> Option<Place>
    ensures { Nears (λ at. HasSome (IsWrongType at) (map (λ t. type_tree t.now) types.now)) nearest result }
{
    let mut nearest = nearest;
    for ty in types {
        nearest = wrong_array(*ty, nearest);
    }
    nearest
}

/// Whether a block is an organization block.
fn is_ob(kind: &BlockKind) -> bool
    ensures { result ≡ is_ob kind.now }
{
    matches!(kind, BlockKind::Ob)
}

/// Whether an organization block may declare a date in this section.
fn is_temporary(section: Section) -> bool
    ensures { result ≡ is_temporary section }
{
    matches!(section, Section::Static | Section::Temp)
}

/// The nearest place, with those of the names of variables that are declared at once.
fn nearest_name(of: &Vars, nearest: Option<Place>) -> Option<Place>
    ensures { Nears (λ at. HasSome (λ v. place_of v ≡ at) (vars_tree of.now)) nearest result }
{
    let mut nearest = nearest;
    for word in &of.names {
        nearest = nearer(nearest, &word.1);
    }
    nearest
}

/// Whether variables that are declared at once are of DATE_AND_TIME, where the block may not declare any.
fn is_misplaced(kind: &BlockKind, of: &Vars) -> bool
    ensures { result ≡ (is_date (type_tree of.now.ty) && not (is_ob kind.now && is_temporary of.now.section)) }
{
    is_date(&of.ty) && !(is_ob(kind) && is_temporary(of.section))
}

/// Looks at variables that are declared at once.
fn misplaced_date(kind: &BlockKind, of: &Vars, nearest: Option<Place>) -> Option<Place>
    ensures { Nears (λ at. HasSome (IsMisplacedDate kind.now at) (vars_tree of.now)) nearest result }
{
    if is_misplaced(kind, of) {
        return nearest_name(of, nearest);
    }
    nearest
}

/// Looks at variables.
pub(crate) fn misplaced_dates(
    kind: &BlockKind,
    vars: &[&Vars],
    nearest: Option<Place>,
) -> Option<Place>
    ensures { Nears (λ at. HasSome (IsMisplacedDate kind.now at) (flat_map (λ v. vars_tree v.now) vars.now)) nearest result }
{
    let mut nearest = nearest;
    for of in vars {
        nearest = misplaced_date(kind, *of, nearest);
    }
    nearest
}
