//! Contract tests of reads and writes of what an operand names.
ghost use Rattle.std.specs.Prelude.{List, IfOk, OnOk};
ghost use Rattle.pv_terms.specs.Pushed.{IsTable, Puts};
ghost use Rattle.pv_access.specs.Accesses as accesses;
ghost use Rattle.pv_access.specs.Given.{AreMoves, IsWriting};
ghost use Rattle.pv_access.specs.Pushed.{Checks, Sets};

use pv_access::{Check, Move, Storage, Writing};
use pv_flow::{Node, Set};
use pv_place::Place;
use pv_terms::TermFault;
use pv_word::Ty;
use std::alloc::Global;

/// [`pv_access::push_read`].
pub fn push_read(
    nodes: &mut Vec<Node>,
    ty: Ty,
    storage: Storage,
    moves: &[Move],
) -> Result<u32, TermFault>
    ensures { (ms : List accesses.Move) → IsTable nodes.old.items → AreMoves nodes.old.items moves.now ms
        → IfOk result (λ r. Puts nodes.old.items nodes.new.items r (accesses.read_term ty storage ms)) }
{
    pv_access::push_read(nodes, ty, storage, moves)
}

/// [`pv_access::push_unset`].
pub fn push_unset(
    nodes: &mut Vec<Node>,
    checks: &mut Vec<Check>,
    storage: Storage,
    moves: &[Move],
    place: Place,
) -> Result<(), TermFault>
    ensures { (ms : List accesses.Move) → IsTable nodes.old.items → AreMoves nodes.old.items moves.now ms
        → OnOk result (Checks nodes.old.items nodes.new.items checks.old.items checks.new.items
        (accesses.unset_checks storage ms place)) }
{
    pv_access::push_unset(nodes, checks, storage, moves, place)
}

/// [`pv_access::push_write`].
pub fn push_write(
    alloc: Global,
    nodes: &mut Vec<Node>,
    sets: &mut Vec<Set>,
    storage: Storage,
    moves: &[Move],
    writing: Writing,
) -> Result<(), TermFault>
    ensures { (w : accesses.Writing) (ms : List accesses.Move) → IsTable nodes.old.items
        → IsWriting nodes.old.items writing w → AreMoves nodes.old.items moves.now ms
        → OnOk result (Sets nodes.old.items nodes.new.items sets.old.items sets.new.items
        (accesses.write_sets storage ms w)) }
{
    pv_access::push_write(alloc, nodes, sets, storage, moves, writing)
}
