//! The term of an element at indexes that move.
ghost use Rattle.std.specs.Prelude.{◌≡◌, ◌+◌, ◌*◌, ◌∷◌, List, IfOk};
ghost use Rattle.pv_flow.specs.Terms as terms;
ghost use Rattle.pv_terms.specs.Pushed.{IsTable, IsAt, Puts};
ghost use Rattle.pv_access.specs.Accesses as accesses;
ghost use Rattle.pv_access.specs.Given.{IsMove, AreMoves};

use crate::access::Move;
use crate::numbers::{further, index_at, steps_of};
use pv_flow::Node;
use pv_terms::{TermFault, push_is_index, push_select, push_variable};
use pv_word::Ty;

/// Cells of one type, each of so many variables.
#[derive(Clone, Copy)]
pub(crate) struct Cells {
    pub(crate) ty: Ty,
    pub(crate) width: u32,
}

/// Whether an index is the k-th from the lowest.
pub(crate) fn push_is_at(nodes: &mut Vec<Node>, m: &Move, k: u32) -> Result<u32, TermFault>
    ensures { (first : accesses.Move) → IsTable nodes.old.items → IsMove nodes.old.items m.now first
        → IfOk result (λ n. Puts nodes.old.items nodes.new.items n (accesses.is_at first k)) }
{
    let v = index_at(m, k)?;
    push_is_index(nodes, m.index, v)
}

/// The element of a variable at the indexes.
#[cycle(elements)]
pub(crate) fn push_element(
    nodes: &mut Vec<Node>,
    cells: Cells,
    moves: &[Move],
    n: u32,
) -> Result<u32, TermFault>
    ensures { (ms : List accesses.Move) → IsTable nodes.old.items → AreMoves nodes.old.items moves.now ms
        → IfOk result (λ r. Puts nodes.old.items nodes.new.items r (accesses.element_term cells.ty cells.width ms n)) }
{
    match moves.split_first() {
        None => push_variable(nodes, n),
        Some((m, more)) => push_choices(nodes, cells, m, more, n),
    }
}

/// The same where there is an index: the element at the lowest one, and for each further one a choice.
#[cycle(elements)]
fn push_choices(
    nodes: &mut Vec<Node>,
    cells: Cells,
    m: &Move,
    more: &[Move],
    n: u32,
) -> Result<u32, TermFault>
    ensures { (first : accesses.Move) (ms : List accesses.Move) → IsTable nodes.old.items
        → IsMove nodes.old.items m.now first → AreMoves nodes.old.items more.now ms
        → IfOk result (λ r. Puts nodes.old.items nodes.new.items r
        (accesses.element_term cells.ty cells.width (first ∷ ms) n)) }
{
    let steps = steps_of(m)?;
    let mut found = push_element(nodes, cells, more, n)?;
    for k in 0..steps {
        found = push_choice(nodes, cells, m, more, n, k + 1, found)?;
    }
    Ok(found)
}

/// The k-th element where the index is that one, and else what was chosen before.
#[cycle(elements)]
fn push_choice(
    nodes: &mut Vec<Node>,
    cells: Cells,
    m: &Move,
    more: &[Move],
    n: u32,
    k: u32,
    before: u32,
) -> Result<u32, TermFault>
    ensures { (first : accesses.Move) (ms : List accesses.Move) (t : terms.Term) → IsTable nodes.old.items
        → IsMove nodes.old.items m.now first → AreMoves nodes.old.items more.now ms → IsAt nodes.old.items before t
        → IfOk result (λ r. Puts nodes.old.items nodes.new.items r (terms.select cells.ty (accesses.is_at first k)
        (accesses.element_term cells.ty cells.width ms (n + k * (first.stride * cells.width))) t)) }
{
    let at = push_is_at(nodes, m, k)?;
    let first = further(n, k, m.stride, cells.width)?;
    let element = push_element(nodes, cells, more, first)?;
    push_select(nodes, cells.ty, at, element, before)
}
