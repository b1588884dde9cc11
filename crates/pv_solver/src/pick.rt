//! Which literal is made false next.
ghost use Rattle.std.specs.Prelude.{◌≡◌, ◌≤◌, IfSome, IfNone, IsTrue, ◌↔◌, ◌/◌};
ghost use Rattle.pv_solver.specs.Search.{IsFree, AllSet};

use pv_order::Order;
use pv_watch::Trail;

/// The first variable of the order that has no value, as far as it has one.
fn take_free(order: &mut Order, trail: &Trail) -> Option<u32>
    ensures { IfSome result (IsFree trail.now.variables trail.now.falses) }
{
    for _ in 0..order.count() {
        let variable = order.take_first();
        if is_free(trail, variable) {
            return Some(variable);
        }
    }
    None
}

/// A variable without a value, if there is one.
fn next_variable(order: &mut Order, trail: &Trail) -> Option<u32>
    ensures some { IfSome result (IsFree trail.now.variables trail.now.falses) }
    ensures none { IfNone result (AllSet trail.now.variables trail.now.falses) }
{
    if let Some(variable) = take_free(order, trail) {
        return Some(variable);
    }
    first_free(trail)
}

/// The literal to be made false next, if there is a variable without a value.
pub(crate) fn pick(order: &mut Order, trail: &Trail) -> Option<u32>
    ensures some { IfSome result (λ lit. IsFree trail.now.variables trail.now.falses (lit / 2)) }
    ensures none { IfNone result (AllSet trail.now.variables trail.now.falses) }
{
    match next_variable(order, trail) {
        Some(variable) => Some(false_literal(trail, variable, order.last_value(variable))),
        None => None,
    }
}

/// The literal of a variable that is false where it has this value.
fn false_literal(trail: &Trail, variable: u32, value: bool) -> u32
    requires { variable ≤ trail.now.variables }
    ensures { result / 2 ≡ variable }
{
    let _ = trail.variables();
    if value {
        2 * variable + 1
    } else {
        2 * variable
    }
}

/// Whether this is a variable that has no value.
fn is_free(trail: &Trail, variable: u32) -> bool
    ensures { IsTrue result ↔ IsFree trail.now.variables trail.now.falses variable }
{
    let upto = trail.len();
    0 < variable
        && variable <= trail.variables()
        && !trail.is_false_at(upto, 2 * variable)
        && !trail.is_false_at(upto, 2 * variable + 1)
}

/// The first variable that has no value.
fn first_free(trail: &Trail) -> Option<u32>
    ensures some { IfSome result (IsFree trail.now.variables trail.now.falses) }
    ensures none { IfNone result (AllSet trail.now.variables trail.now.falses) }
{
    for v in 0..trail.variables() {
        if is_free(trail, v + 1) {
            return Some(v + 1);
        }
    }
    None
}
