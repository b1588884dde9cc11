//! The clause at the first unique implication point, with its hints. Nothing is claimed of it: whoever asks
//! for it checks it.
//!
//! A false clause is at hand, which begins as the conflict's. From the trail's end on a literal of it is replaced
//! by the other literals of its reason, until one literal of the last level is left. Of the lower levels those go
//! that the others imply, by their reasons and the reasons of what stands in these, and all of level 0. The hints
//! are the reasons that the line needs, in the trail's order, and the conflict after them.
ghost use Rattle.std.specs.Prelude.{◌^◌, ◌<◌};
ghost use Rattle.pv_learn.specs.Learning.{KeepsRoom};

use crate::draft::Draft;
use crate::known::Known;
use crate::places::Places;
use pv_cnf::ClauseView;
use pv_order::Order;
use pv_watch::{Propagator, Trail};
use std::alloc::{AllocError, Global};

/// What an analysis knows of the literals that are false, by their places on the trail. The memory is taken when it
/// is made.
#[derive(Drop)]
pub struct Analysis {
    /// Those in the clause.
    held: Places,
    /// Those, and what stands in the reasons of lower levels.
    met: Places,
    /// Those of lower levels that the others of the clause imply.
    implied: Places,
    /// Those that the line needs, as a literal or by their reasons.
    needed: Places,
    /// How many literals of the last level are in the clause.
    left: usize,
    /// The places of the first and of the last decision; where there is none, past the trail's end and 0.
    root: usize,
    start: usize,
    /// The place of the literal of the last level that stays; without a decision past the trail's end.
    first: usize,
}

/// The place of a literal, past the trail's end where it isn't false.
fn place_of(trail: &Trail, lit: u32) -> usize {
    if lit / 2 <= trail.variables() {
        trail.place(lit) as usize
    } else {
        usize::MAX
    }
}

/// The literal at a place, or 0.
fn lit_at(trail: &Trail, place: usize) -> u32 {
    let falses = trail.falses();
    if place < falses.len() {
        falses[place]
    } else {
        0
    }
}

/// The reason of the literal at a place, or 0.
fn reason_at(trail: &Trail, place: usize) -> u32 {
    let reasons = trail.reasons();
    if place < reasons.len() {
        reasons[place]
    } else {
        0
    }
}

impl Analysis {
    /// Nothing is known of the variables 1 to `variables`.
    pub fn new(alloc: Global, variables: u32) -> Result<Self, AllocError>
        requires { variables < 2 ^ 31 }
    {
        Ok(Analysis {
            held: Places::new(alloc, variables)?,
            met: Places::new(alloc, variables)?,
            implied: Places::new(alloc, variables)?,
            needed: Places::new(alloc, variables)?,
            left: 0,
            root: 0,
            start: 0,
            first: 0,
        })
    }

    /// Begins anew, with this trail.
    fn begin(&mut self, trail: &Trail) {
        self.held.clear();
        self.met.clear();
        self.implied.clear();
        self.needed.clear();
        let end = trail.falses().len();
        self.left = 0;
        self.root = trail.starts().first().copied().unwrap_or(end);
        self.start = trail.starts().last().copied().unwrap_or(0);
        self.first = end;
    }

    /// Whether the literal at this place of the trail is one of the line's, if it is needed.
    fn stays(&self, place: usize) -> bool {
        place == self.first
            || self.root <= place
                && place < self.start
                && self.held.has(place)
                && !self.implied.has(place)
    }

    /// Takes the literals of a clause in.
    fn hold(&mut self, known: &Known<'_>, order: &mut Order, id: u32) {
        if id == 0 || id > known.count() {
            return;
        }
        let trail = known.propagator.trail();
        let end = trail.len();
        for lit in known.clause(id) {
            let place = place_of(trail, *lit);
            if place < end && !self.held.has(place) {
                self.held.put(place);
                self.met.put(place);
                order.bump(*lit / 2);
                if self.start <= place {
                    self.left = self.left.saturating_add(1);
                }
            }
        }
    }

    /// Replaces literals of the last level by those of their reasons, from the trail's end on, until one is left.
    fn resolve(&mut self, known: &Known<'_>, order: &mut Order, conflict: u32) {
        let trail = known.propagator.trail();
        self.hold(known, order, conflict);
        let mut end = trail.len();
        for _ in self.start..trail.len() {
            let Some(place) = self.held.last_before(end) else {
                return;
            };
            if place < self.start {
                return;
            }
            self.left = self.left.saturating_sub(1);
            if self.left == 0 && self.root <= place {
                self.first = place;
                return;
            }
            self.hold(known, order, reason_at(trail, place));
            end = place;
        }
    }

    /// Asks for the literals of a reason.
    fn ask(&mut self, known: &Known<'_>, id: u32) {
        if id == 0 || id > known.count() {
            return;
        }
        let trail = known.propagator.trail();
        let end = trail.len();
        for lit in known.clause(id) {
            let place = place_of(trail, *lit);
            if place < end {
                self.met.put(place);
            }
        }
    }

    /// Asks for what stands in the reasons of the literals from place `from` up to `upto`, from the last on.
    fn ask_level(&mut self, known: &Known<'_>, from: usize, upto: usize) {
        let trail = known.propagator.trail();
        let mut end = upto;
        for _ in from..upto {
            let Some(place) = self.met.last_before(end) else {
                return;
            };
            if place < from {
                return;
            }
            self.ask(known, reason_at(trail, place));
            end = place;
        }
    }

    /// Does so for the lower levels, from the last on. A literal of a level of which the clause has none isn't
    /// implied by it, so its reason isn't asked for.
    fn ask_all(&mut self, known: &Known<'_>) {
        let starts = known.propagator.trail().starts();
        let mut end = self.start;
        let mut next = self.held.last_before(end);
        for k in 1..starts.len() {
            let Some(place) = next else {
                return;
            };
            let start = starts[starts.len() - 1 - k];
            if start <= place {
                self.ask_level(known, start, end);
                next = self.held.last_before(start);
            }
            end = start;
        }
    }

    /// Whether a literal of the reason of `own` is that one's, of level 0, in the clause, or implied by it.
    fn is_given(&self, trail: &Trail, own: u32, lit: u32) -> bool {
        let place = place_of(trail, lit);
        place < self.root || self.held.has(place) || self.implied.has(place) || lit / 2 == own / 2
    }

    /// Whether the reason of a literal makes it follow from the clause.
    fn is_implied(&self, known: &Known<'_>, own: u32, id: u32) -> bool {
        let trail = known.propagator.trail();
        id != 0
            && id <= known.count()
            && known
                .clause(id)
                .iter()
                .all(|lit| self.is_given(trail, own, *lit))
    }

    /// Finds which of the lower levels' literals are implied by the clause, from the first on.
    fn imply_all(&mut self, known: &Known<'_>) {
        let trail = known.propagator.trail();
        let mut from = self.root;
        for _ in self.root..self.start {
            let Some(place) = self.met.first_from(from) else {
                return;
            };
            if place >= self.start {
                return;
            }
            if self.is_implied(known, lit_at(trail, place), reason_at(trail, place)) {
                self.implied.put(place);
            }
            from = place.saturating_add(1);
        }
    }

    /// Marks the literals of a clause as needed.
    fn need(&mut self, known: &Known<'_>, id: u32) {
        if id == 0 || id > known.count() {
            return;
        }
        let trail = known.propagator.trail();
        let end = trail.len();
        for lit in known.clause(id) {
            let place = place_of(trail, *lit);
            if place < end {
                self.needed.put(place);
            }
        }
    }

    /// Finds what the line needs, from the conflict and the trail's end on.
    fn need_all(&mut self, known: &Known<'_>, conflict: u32) {
        let trail = known.propagator.trail();
        self.need(known, conflict);
        let mut end = trail.len();
        for _ in 0..trail.len() {
            let Some(place) = self.needed.last_before(end) else {
                return;
            };
            if !self.stays(place) {
                self.need(known, reason_at(trail, place));
            }
            end = place;
        }
    }

    /// Writes a needed place down: its literal where that stays, and else its reason.
    fn write_place(&self, trail: &Trail, draft: &mut Draft, place: usize)
        ensures room { KeepsRoom draft.old draft.new }
    {
        if self.stays(place) {
            draft.put_lit(lit_at(trail, place));
        } else {
            draft.put_hint(reason_at(trail, place));
        }
    }

    /// Writes the line down: the literals that stay, and the reasons of the others that are needed.
    fn write(&self, trail: &Trail, draft: &mut Draft, conflict: u32)
        ensures room { KeepsRoom draft.old draft.new }
    {
        draft.clear();
        let mut from = 0;
        for _ in 0..trail.len() {
            match self.needed.first_from(from) {
                None => break,
                Some(place) => {
                    self.write_place(trail, draft, place);
                    from = place.saturating_add(1);
                }
            }
        }
        draft.put_hint(conflict);
    }

    /// Makes the line at hand the one that a false clause gives, whose number is `conflict`.
    pub(crate) fn analyze(
        &mut self,
        propagator: &Propagator,
        order: &mut Order,
        draft: &mut Draft,
        conflict: u32,
    )
        ensures room { KeepsRoom draft.old draft.new }
    {
        let known = Known { propagator };
        self.begin(propagator.trail());
        self.resolve(&known, order, conflict);
        self.ask_all(&known);
        self.imply_all(&known);
        self.need_all(&known, conflict);
        self.write(propagator.trail(), draft, conflict);
    }
}
