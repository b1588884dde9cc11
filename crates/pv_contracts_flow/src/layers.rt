//! The calls of layers.
ghost use Rattle.std.specs.Prelude.{◌≡◌, true, ◌+◌, ◌*◌, ◌<◌, [], length, IsTrue, ◌↔◌, IfOk, OnOk};
ghost use Rattle.pv_layout.specs.Spots.{Enter};
ghost use Rattle.pv_layout.specs.Layout.{bare};
ghost use Rattle.pv_layer.specs.Standing.{StandsFor, head_by, the_terms, terms_in, act_of, branch_of, loops_in, checks_below, way_below, HasSpot, HasRoom, KeepsTerms, Lays, Opens};
ghost use Rattle.pv_layer.specs.Finished.{IsLaid, IsLegal, IsBody};

use pv_flow::{Parts, Variable};
use pv_layer::{Check, Layer, Way};
use pv_place::Place;
use std::alloc::{AllocError, Global};

/// [`Layer::new`].
pub fn empty(
    alloc: Global,
    vars: Vec<Variable>,
    bound: u32,
    shared: u32,
    done: u32,
) -> Result<Layer, AllocError>
    requires { done < 4294967295 }
    ensures stands { IfOk result (λ layer. StandsFor (head_by vars.items bound shared) done [] [] layer) }
    ensures terms { IfOk result (λ layer. terms_in layer ≡ 1) }
{
    Layer::new(alloc, vars, bound, shared, done)
}

/// [`Layer::has_spot`].
pub fn has_spot(layer: &Layer) -> bool
    ensures { IsTrue result ↔ HasSpot layer.now }
{
    layer.has_spot()
}

/// [`Layer::has_room`].
pub fn has_room(layer: &Layer, checks: usize) -> bool
    ensures { IsTrue result ↔ HasRoom layer.now checks }
{
    layer.has_room(checks)
}

/// [`Layer::open`].
pub fn open_loop(
    alloc: Global,
    layer: &mut Layer,
    first: u32,
    last: u32,
    entry_turn: bool,
    place: Place,
) -> Result<(), AllocError>
    ensures terms { OnOk result (KeepsTerms layer.old layer.new 0) }
    ensures stands { OnOk result (Opens layer.old layer.new (bare first last entry_turn place)) }
{
    layer.open(alloc, first, last, entry_turn, place)
}

/// [`Layer::act`].
pub fn act(alloc: Global, layer: &mut Layer, checks: &[Check], way: Way) -> Result<(), AllocError>
    requires spot { HasSpot layer.old }
    requires checks { checks_below (terms_in layer.old) checks.now ≡ true }
    requires way { way_below (terms_in layer.old) (loops_in layer.old) way ≡ true }
    requires room { HasRoom layer.old (length checks.now) }
    ensures terms { OnOk result (KeepsTerms layer.old layer.new (3 * length checks.now)) }
    ensures stands { OnOk result (Lays layer.old layer.new (act_of (the_terms layer.old) checks.now way)) }
{
    layer.act(alloc, checks, way)
}

/// [`Layer::branch`].
pub fn branch(
    alloc: Global,
    layer: &mut Layer,
    checks: &[Check],
    condition: u32,
    one: Way,
    other: Way,
) -> Result<(), AllocError>
    requires spot { HasSpot layer.old }
    requires checks { checks_below (terms_in layer.old) checks.now ≡ true }
    requires condition { condition < terms_in layer.old }
    requires one { way_below (terms_in layer.old) (loops_in layer.old) one ≡ true }
    requires other { way_below (terms_in layer.old) (loops_in layer.old) other ≡ true }
    requires room { HasRoom layer.old (length checks.now) }
    ensures terms { OnOk result (KeepsTerms layer.old layer.new (3 * length checks.now + 3)) }
    ensures stands { OnOk result (Lays layer.old layer.new (branch_of (the_terms layer.old) checks.now condition one other)) }
{
    layer.branch(alloc, checks, condition, one, other)
}

/// [`Layer::enter`].
pub fn enter(
    layer: &mut Layer,
    block: u32,
    instance: u32,
    place: Place,
    to: u32,
) -> Result<(), AllocError>
    requires spot { HasSpot layer.old }
    ensures terms { OnOk result (KeepsTerms layer.old layer.new 0) }
    ensures stands { OnOk result (Lays layer.old layer.new (Enter block instance place to)) }
{
    layer.enter(block, instance, place, to)
}

/// [`Layer::finish`].
pub fn finish(layer: Layer) -> Parts
    ensures parts { IsLaid layer result }
    ensures legal { IsLegal layer result }
    ensures body { IsBody layer result }
{
    layer.finish()
}
