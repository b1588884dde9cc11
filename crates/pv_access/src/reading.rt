//! Terms of what is read.
ghost use Rattle.std.specs.Prelude.{List, [], ◌∷◌, IfOk, OnOk};
ghost use Rattle.pv_terms.specs.Pushed.{IsTable, Puts};
ghost use Rattle.pv_access.specs.Accesses as accesses;
ghost use Rattle.pv_access.specs.Given.{AreMoves};
ghost use Rattle.pv_access.specs.Pushed.{Checks};

use crate::access::{Move, Storage};
use crate::areas::{push_bit, push_bytes};
use crate::check::Check;
use crate::elements::{Cells, push_element};
use crate::numbers::added;
use pv_flow::Node;
use pv_place::{Place, TrapKind};
use pv_terms::{TermFault, push_constant, push_not};
use pv_word::Ty;

/// The term of what is read there at the indexes; a constant is one of type `ty`.
pub fn push_read(
    nodes: &mut Vec<Node>,
    ty: Ty,
    storage: Storage,
    moves: &[Move],
) -> Result<u32, TermFault>
    ensures { (ms : List accesses.Move) → IsTable nodes.old.items → AreMoves nodes.old.items moves.now ms
        → IfOk result (λ r. Puts nodes.old.items nodes.new.items r (accesses.read_term ty storage ms)) }
{
    match storage {
        Storage::Cell(own, n) => push_element(nodes, Cells { ty: own, width: 1 }, moves, n),
        Storage::Brief(own, n) => push_element(nodes, Cells { ty: own, width: 2 }, moves, n),
        Storage::Bit(n, b) => push_bit(nodes, n, b),
        Storage::Bytes(own, n, count) => push_bytes(nodes, own, n, count),
        Storage::Fixed(v) => push_constant(nodes, ty, v),
        Storage::Nowhere => push_constant(nodes, ty, 0),
    }
}

/// The term of whether the element of a brief cell lacks a value.
fn push_lacks(nodes: &mut Vec<Node>, moves: &[Move], n: u32) -> Result<u32, TermFault>
    ensures { (ms : List accesses.Move) → IsTable nodes.old.items → AreMoves nodes.old.items moves.now ms
        → IfOk result (λ r. Puts nodes.old.items nodes.new.items r (accesses.lacks_term ms n)) }
{
    let present = added(n, 1)?;
    let element = push_element(
        nodes,
        Cells {
            ty: Ty::Bool,
            width: 2,
        },
        moves,
        present,
    )?;
    push_not(nodes, element)
}

/// Adds the check that a brief cell, variable n, has a value.
fn check_brief(
    nodes: &mut Vec<Node>,
    checks: &mut Vec<Check>,
    n: u32,
    moves: &[Move],
    place: Place,
) -> Result<(), TermFault>
    ensures { (ms : List accesses.Move) → IsTable nodes.old.items → AreMoves nodes.old.items moves.now ms
        → OnOk result (Checks nodes.old.items nodes.new.items checks.old.items checks.new.items
        (accesses.unset_check ms n place ∷ [])) }
{
    let term = push_lacks(nodes, moves, n)?;
    checks.push(Check {
        term,
        kind: TrapKind::Unset,
        place,
    })?;
    Ok(())
}

/// Adds the check that what is read there has a value, if it may have none.
pub fn push_unset(
    nodes: &mut Vec<Node>,
    checks: &mut Vec<Check>,
    storage: Storage,
    moves: &[Move],
    place: Place,
) -> Result<(), TermFault>
    ensures { (ms : List accesses.Move) → IsTable nodes.old.items → AreMoves nodes.old.items moves.now ms
        → OnOk result (Checks nodes.old.items nodes.new.items checks.old.items checks.new.items
        (accesses.unset_checks storage ms place)) }
{
    match storage {
        Storage::Brief(_, n) => check_brief(nodes, checks, n, moves, place),
        Storage::Cell(..)
        | Storage::Bit(..)
        | Storage::Bytes(..)
        | Storage::Fixed(_)
        | Storage::Nowhere => Ok(()),
    }
}
