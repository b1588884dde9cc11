//! A machine that counts down.
ghost use Rattle.std.specs.Prelude.{◌≡◌, ◌≤◌};

use pv_cert::Query;
use pv_machine::Machine;

/// A machine whose state is a number from 0 to `most`. Each scan takes one from it, down to 0, and fails where the number is 1.
#[derive(Clone, Copy, Drop)]
pub struct Countdown {
    /// The number at the start.
    pub start: u32,
    /// The greatest number.
    pub most: u32,
    ghost within: { start ≤ most },
}

impl Countdown {
    ghost use Rattle.pv_rows_kind.specs.Countdowns.{is_met};

    /// Whether it meets the query.
    pub fn is_met(self, q: Query) -> bool
        ensures { result ≡ is_met self.start self.most q }
    {
        match q {
            Query::Base(k) => k == self.start,
            Query::Step(k) => k < self.most,
        }
    }
}

impl Machine for Countdown {
    ghost use Rattle.pv_rows_kind.specs.Countdowns.{counting, counting_is_lawful};

    ghost machine = { λ c. counting c.start c.most };

    fn state_len(&self) -> usize {
        1
    }

    fn input_len(&self) -> usize {
        0
    }

    ghost lawful = { λ c. counting_is_lawful c.start c.most c.within };
}
