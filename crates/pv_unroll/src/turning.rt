//! Which loop's turn each edge starts.
ghost use Rattle.std.specs.Prelude.{◌≡◌, map, IfOk};
ghost use Rattle.pv_flow.specs.View.{loop_of};
ghost use Rattle.pv_unroll.specs.Turning.{marked, turns_of};

use crate::numbers::set_at;
use pv_flow::Loop;
use std::alloc::{AllocError, Global};

/// Marks the turn edges of a loop, whose number is one less.
fn mark(turned: &mut [u64], number: u64, turns: &[u32])
    ensures { turned.new ≡ marked turned.old number turns.now }
{
    for turn in turns {
        set_at(turned, *turn as usize, number);
    }
}

/// Of each edge the loop whose turn it starts, numbers being one more, and 0 for none.
pub(crate) fn turns_of(alloc: Global, loops: &[Loop], edges: usize) -> Result<Vec<u64>, AllocError>
    ensures { IfOk result (λ found. found.items ≡ turns_of edges (map loop_of loops.now)) }
{
    let mut found = vec![in alloc; 0; edges]?;
    for (range, turning) in loops.iter().enumerate() {
        mark(&mut found, range as u64 + 1, turning.turns.as_slice());
    }
    Ok(found)
}
