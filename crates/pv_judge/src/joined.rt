//! The lines of a log, and the lemma that comes next, as one log.
ghost use Rattle.std.specs.Prelude.{◌≡◌, ◌<◌, length, IfNone, IfSome, IsSome};
ghost use Rattle.pv_valid.specs.Validity.{with_next};

use pv_log::{Line, Log, LogView};

/// The lines of a log, and the lemma that comes next, if there is one.
#[derive(Clone, Copy)]
pub(crate) struct Joined<'a> {
    log: &'a Log,
    next: &'a Option<Line>,
    /// How many lines the log has.
    own: u32,
    /// How many there are in all.
    all: u32,
    ghost counted: { own ≡ length log.now },
    ghost whole: { all ≡ length (with_next log.now next.now) },
}

impl<'a> Joined<'a> {
    /// A log with the next lemma after it; none where that would be line 4,294,967,296.
    pub fn make(log: &'a Log, next: &'a Option<Line>) -> Option<Joined<'a>>
        ensures some { IfSome result (λ joined. with_next joined.log.now joined.next.now ≡ with_next log.now next.now) }
        ensures none { IfNone result ((length log.now ≡ 4294967295) × IsSome next.now) }
    {
        let own = log.lines();
        let all = match next {
            Some(_) => own.checked_add(1)?,
            None => own,
        };
        Some(Joined {
            log,
            next,
            own,
            all,
        })
    }
}

impl Joined<'_> {
    ghost use Rattle.std.specs.Prelude.{◌≤◌, length};
    ghost use Rattle.std.specs.Option.{option_copied};
    ghost use Rattle.pv_valid.specs.Validity.{with_next};
    ghost use Rattle.pv_judge.specs.Joining.{IsNextAt};

    /// The lemma that comes next, where this is its number.
    fn next_at(&self, n: u32) -> Option<&Line>
        requires { n ≤ length (with_next self.now.log.now self.now.next.now) }
        ensures { IsNextAt self.now.log.now self.now.next.now n (option_copied result) }
    {
        if self.own < n {
            self.next.as_ref()
        } else {
            None
        }
    }
}

impl LogView for Joined<'_> {
    ghost all_lines = { λ joined. with_next joined.log.now joined.next.now };

    fn lines(&self) -> u32 {
        self.all
    }

    fn id(&self, n: u32) -> u32 {
        match self.next_at(n) {
            Some(line) => line.id,
            None => self.log.id(n),
        }
    }

    fn lits(&self, n: u32) -> &[u32] {
        match self.next_at(n) {
            Some(line) => line.lits.as_slice(),
            None => self.log.lits(n),
        }
    }

    fn hints(&self, n: u32) -> &[u32] {
        match self.next_at(n) {
            Some(line) => line.hints.as_slice(),
            None => self.log.hints(n),
        }
    }
}
