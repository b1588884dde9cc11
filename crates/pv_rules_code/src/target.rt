//! Targets of assignments and operands of instructions, each by itself.
ghost use Rattle.std.specs.Prelude.{◌≡◌, OnOk, map};
ghost use Rattle.pv_tree.specs.Rules.Targets as targets;
ghost use Rattle.pv_tree.specs.View.{operand_tree};
ghost use Rattle.pv_names.specs.InScope.{scope_of};
ghost use Rattle.pv_names.specs.Views.{thing_tree};
ghost use Rattle.pv_rules_code.specs.AtTargets.{counted_at, named_place};
ghost use Rattle.pv_rules_code.specs.Nears.{HasAims};
ghost use Rattle.pv_rules_code.specs.Spots.{loop_tree};

use crate::argument::is_counted_operand;
use crate::around::Loop;
use crate::near::AimNear;
use pv_names::{Scope, Thing, root_place};
use pv_place::Place;
use pv_rules_expr::{
    IndexFault, index_behind, misused_behind, name_of_missing, nearer_of, thing_behind, where_is,
    wrong_address,
};
use pv_tree::Operand;
use std::alloc::{AllocError, Global};

/// Whether nothing can be assigned to a thing.
pub(crate) fn is_fixed(thing: Thing) -> bool
    ensures { result ≡ targets.is_fixed (thing_tree thing.entry) }
{
    match thing {
        Thing::Part(_) => false,
        Thing::Constant(_) => true,
        Thing::Block(_) => true,
        Thing::NoName(_) => false,
        Thing::NoArray(_) => false,
        Thing::ADate(_) => false,
        Thing::Untold => false,
    }
}

/// The place of an operand that a FOR around its statement counts.
pub(crate) fn counted_place(loops: &[Loop], operand: &Operand) -> Option<Place>
    ensures { result ≡ counted_at (map loop_tree loops.now) (operand_tree operand.now) }
{
    where_is(is_counted_operand(loops, operand), operand.place)
}

/// The nearest places, with those of an operand that is written or only named.
pub(crate) fn add_aims(
    scope: &Scope,
    alloc: Global,
    written: bool,
    operand: &Operand,
    aims: &mut AimNear,
) -> Result<(), AllocError>
    ensures { OnOk result (HasAims (λ what. named_place written what (scope_of scope.now)
        (operand_tree operand.now)) aims.old aims.new) }
{
    let from = scope.root(&operand.root, operand.place);
    let name = root_place(&operand.root, operand.place);
    let steps = operand.steps.as_slice();
    let misused = misused_behind(scope, alloc, from, name, steps)?;
    let beyond = index_behind(scope, alloc, IndexFault::Beyond, from, name, steps)?;
    let thing = thing_behind(scope, from, name, steps);
    let fixed = where_is(written && is_fixed(thing), operand.place);
    aims.fixed = nearer_of(aims.fixed, fixed);
    aims.missing = nearer_of(aims.missing, name_of_missing(thing));
    aims.address = nearer_of(aims.address, wrong_address(operand));
    aims.misused = nearer_of(aims.misused, misused);
    aims.beyond = nearer_of(aims.beyond, beyond);
    Ok(())
}
