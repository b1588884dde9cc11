//! When decisions are taken back.

/// When to take all decisions back: after a number of conflicts that grows in waves. Nothing is claimed of it.
#[derive(Clone, Copy, Debug)]
pub(crate) struct Restarts {
    /// The conflicts since the last time.
    conflicts: u32,
    /// After how many it is time.
    inner: u32,
    /// Up to where the number grows in this wave.
    outer: u32,
}

/// The number of conflicts at the beginning of a wave.
const FIRST: u32 = 100;

/// A tenth more.
fn grown(n: u32) -> u32 {
    n.saturating_add(n / 10)
}

impl Restarts {
    pub(crate) fn new() -> Self {
        Restarts {
            conflicts: 0,
            inner: FIRST,
            outer: FIRST,
        }
    }

    /// A conflict has come: whether it is time.
    pub(crate) fn is_due(&mut self) -> bool {
        self.conflicts = self.conflicts.saturating_add(1);
        if self.conflicts < self.inner {
            return false;
        }
        self.conflicts = 0;
        if self.inner < self.outer {
            self.inner = grown(self.inner);
        } else {
            self.inner = FIRST;
            self.outer = grown(self.outer);
        }
        true
    }
}
