//! Calls, each by itself: where one breaks a rule.
ghost use Rattle.std.specs.Prelude.{◌≡◌, OnOk, map};
ghost use Rattle.pv_tree.specs.Callees.{called_name};
ghost use Rattle.pv_tree.specs.Parts.{parts_of_call, site};
ghost use Rattle.pv_tree.specs.Rules.Misfits.{is_called_date};
ghost use Rattle.pv_tree.specs.View.{call_tree};
ghost use Rattle.pv_names.specs.InScope.{scope_of};
ghost use Rattle.pv_names.specs.Callees.{how_tree, called_tree, callee_tree};
ghost use Rattle.pv_rules_expr.specs.Places.{place_where};
ghost use Rattle.pv_rules_code.specs.AtCalls.{not_declared_at, date_at, call_place};
ghost use Rattle.pv_rules_code.specs.Nears.{HasParts, HasAsks};
ghost use Rattle.pv_rules_code.specs.Spots.{loop_tree};

use crate::argument::add_args;
use crate::around::Loop;
use crate::given::{lacking_place, later_place};
use crate::near::AskNear;
use pv_names::{Called, Callee, How, Scope, is_date};
use pv_place::Place;
use pv_rules_expr::{Near, nearer_of, where_is};
use pv_tree::CallTree;
use pv_types::Name;
use std::alloc::{AllocError, Global};

/// The place of a called name that isn't declared.
fn not_declared_place(callee: Callee) -> Option<Place>
    ensures { result ≡ not_declared_at (callee_tree callee.entry) }
{
    match callee {
        Callee::Runs(_) => None,
        Callee::NotDeclared(place) => Some(place),
        Callee::NotCallable(_) => None,
        Callee::Unknown => None,
    }
}

/// Whether a called name is a variable of DATE_AND_TIME.
fn is_called_date(called: Called) -> bool
    ensures { result ≡ is_called_date (called_tree called.entry) }
{
    match called {
        Called::Variable(var) => is_date(&var.of.ty),
        Called::Block(_) => false,
        Called::NoCallee => false,
        Called::Undeclared => false,
    }
}

/// The place of a name of a call, if it is a variable of DATE_AND_TIME.
fn named_date(scope: &Scope, name: &Name, hash: bool, place: Place) -> Option<Place>
    ensures { result
        ≡ place_where (is_called_date (called_name (scope_of scope.now) name.now hash)) place }
{
    where_is(is_called_date(scope.called_name(name, hash)), place)
}

/// The place of a name of a call that is a variable of DATE_AND_TIME.
fn date_place(scope: &Scope, call: &CallTree) -> Option<Place>
    ensures { result ≡ date_at (scope_of scope.now) (call_tree call.now) }
{
    let first = named_date(scope, &call.name, call.hash, call.name_place);
    match &call.base {
        Some((second, place)) => nearer_of(first, named_date(scope, second, false, *place)),
        None => nearer_of(first, None),
    }
}

/// The nearest places, with those of a call and its arguments.
pub(crate) fn add_call(
    scope: &Scope,
    alloc: Global,
    loops: &[Loop],
    how: How,
    call: &CallTree,
    near: &mut Near,
    asks: &mut AskNear,
) -> Result<(), AllocError>
    ensures parts { OnOk result (HasParts (scope_of scope.now) (parts_of_call (scope_of scope.now)
        (site (how_tree how) (call_tree call.now))) near.old near.new) }
    ensures asks { OnOk result (HasAsks (λ what. call_place what (scope_of scope.now)
        (map loop_tree loops.now) (site (how_tree how) (call_tree call.now)))
        asks.old asks.new) }
{
    let callee = scope.callee_of(how, call);
    let later = later_place(alloc, callee, how, call)?;
    let lacking = lacking_place(alloc, callee, how, call)?;
    asks.missing = nearer_of(asks.missing, not_declared_place(callee));
    asks.date = nearer_of(asks.date, date_place(scope, call));
    asks.later = nearer_of(asks.later, later);
    asks.lacking = nearer_of(asks.lacking, lacking);
    let args = call.args.as_slice();
    add_args(scope, alloc, loops, callee, how, args, near, &mut asks.args)
}
