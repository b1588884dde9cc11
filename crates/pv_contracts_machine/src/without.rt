//! The reduction of a toggle to that without one of its inputs.
ghost use Rattle.std.specs.Prelude.{◌≡◌, ◌≤◌, suc};

use crate::toggle::Toggle;
use pv_machine::Reduction;
use std::alloc::{AllocError, Global};

/// The reduction that leaves out the input of this number, from 0.
#[derive(Drop)]
pub struct Without {
    alloc: Global,
    number: usize,
    source: Toggle,
    target: Toggle,
    ghost one_less: { suc target.inputs ≡ source.inputs },
    ghost inside: { number ≤ target.inputs },
}

/// The reduction of the toggle with one input more than `left` to that without the input of this number.
pub fn without_input(alloc: Global, left: u32, number: usize) -> Without
    requires { number ≤ left }
    ensures number { result.number ≡ number }
    ensures target { result.target.inputs ≡ left }
{
    let left = left as usize;
    Without {
        alloc,
        number,
        source: Toggle { inputs: left + 1 },
        target: Toggle { inputs: left },
    }
}

impl Reduction for Without {
    ghost use Rattle.std.specs.Prelude.{true};
    ghost use Rattle.pv_contracts_machine.specs.Toggles.{toggle};
    ghost use Rattle.pv_contracts_machine.specs.Leaving.{leaving, leaving_reduces, leaving_replays};

    type From = Toggle;

    type To = Toggle;

    ghost from = { λ w. toggle w.source.inputs };

    ghost to = { λ w. toggle w.target.inputs };

    ghost maps = { λ w. leaving w.number };

    ghost is_exact = { λ w. true };

    fn source(&self) -> &Toggle {
        &self.source
    }

    fn target(&self) -> &Toggle {
        &self.target
    }

    fn exact(&self) -> bool {
        true
    }

    fn pull(&self, input: &[i128]) -> Result<Vec<i128>, AllocError> {
        let mut all = Vec::from_slice(self.alloc, input)?;
        all.insert(self.number, 0)?;
        Ok(all)
    }

    fn embed(&self, state: &[i128]) -> Result<Vec<i128>, AllocError> {
        Vec::from_slice(self.alloc, state)
    }

    ghost reduces = { λ w. leaving_reduces w.number w.target.inputs w.source.inputs w.one_less };

    ghost replays = { λ w e. leaving_replays w.number w.target.inputs w.source.inputs w.one_less };
}
