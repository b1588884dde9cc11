//! One reduction after another.
ghost use Rattle.pv_machine.specs.Same.{IsSame};

use crate::reduction::Reduction;
use std::alloc::AllocError;

/// The reduction by the first and then by the second. What the first reduces to is what the second reduces.
#[derive(Drop)]
pub struct Then<First: Reduction, Second: Reduction> {
    pub(crate) first: First,
    pub(crate) second: Second,
    ghost meet: { IsSame (First.to first) (Second.from second) },
}

impl<First: Reduction, Second: Reduction> Reduction for Then<First, Second> {
    ghost use Rattle.pv_machine.specs.Reductions.{both, joined};
    ghost use Rattle.pv_machine.specs.Joining.{two_joined, then_replays};

    type From = First::From;

    type To = Second::To;

    ghost from = { λ t. First.from t.first };

    ghost to = { λ t. Second.to t.second };

    ghost maps = { λ t. joined (First.maps t.first) (Second.maps t.second) };

    ghost is_exact = { λ t. both (First.is_exact t.first) (Second.is_exact t.second) };

    fn source(&self) -> &First::From {
        self.first.source()
    }

    fn target(&self) -> &Second::To {
        self.second.target()
    }

    fn exact(&self) -> bool {
        self.first.exact() && self.second.exact()
    }

    fn pull(&self, input: &[i128]) -> Result<Vec<i128>, AllocError> {
        let middle = self.second.pull(input)?;
        self.first.pull(middle.as_slice())
    }

    fn embed(&self, state: &[i128]) -> Result<Vec<i128>, AllocError> {
        let middle = self.second.embed(state)?;
        self.first.embed(middle.as_slice())
    }

    ghost reduces = { λ t. two_joined (First.from t.first) (First.to t.first) (Second.from t.second) (Second.to t.second)
        (First.maps t.first) (Second.maps t.second) (First.reduces t.first) t.meet (Second.reduces t.second) };

    ghost replays = { λ t. then_replays (First.from t.first) (First.to t.first) (Second.from t.second) (Second.to t.second)
        (First.maps t.first) (Second.maps t.second) (First.is_exact t.first) (Second.is_exact t.second) (First.reduces t.first) t.meet
        (Second.reduces t.second) (First.replays t.first) (Second.replays t.second) };
}
