//! A heap of variables, each once, and where it stands there. Nothing is claimed of it.
ghost use Rattle.std.specs.Prelude.{◌^◌, ◌<◌};

use std::alloc::{AllocError, Global};

/// The place of a variable that isn't in the heap.
const NO_PLACE: u32 = u32::MAX;

/// No heap of variables has more levels.
const LEVELS: u32 = 32;

/// The variables in the order of their activities, the greatest first, of two with the same the later one.
#[derive(Drop)]
pub(crate) struct Heap {
    /// The activity of each variable, and one for 0.
    activities: Vec<u64>,
    /// For each variable its place among the first `count` entries.
    places: Vec<u32>,
    entries: Vec<u32>,
    count: usize,
}

impl Heap {
    /// All variables from 1 to `variables`, with no activity.
    pub(crate) fn new(alloc: Global, variables: u32) -> Result<Self, AllocError>
        requires { variables < 2 ^ 31 }
    {
        let count = variables as usize;
        let mut heap = Heap {
            activities: vec![in alloc; 0; count + 1]?,
            places: vec![in alloc; NO_PLACE; count + 1]?,
            entries: vec![in alloc; 0; count]?,
            count,
        };
        heap.fill(variables);
        Ok(heap)
    }

    /// Puts all variables in, the last first.
    fn fill(&mut self, variables: u32) {
        for v in 0..variables {
            self.put((variables - 1 - v) as usize, v + 1);
        }
    }

    /// The variable at a place, or 0.
    fn at(&self, place: usize) -> u32 {
        if place < self.count && place < self.entries.len() {
            self.entries[place]
        } else {
            0
        }
    }

    /// The place of a variable, or one past the end.
    fn place(&self, variable: u32) -> usize {
        let v = variable as usize;
        if v < self.places.len() {
            self.places[v] as usize
        } else {
            NO_PLACE as usize
        }
    }

    /// How active a variable is.
    fn activity(&self, variable: u32) -> u64 {
        let v = variable as usize;
        if v < self.activities.len() {
            self.activities[v]
        } else {
            0
        }
    }

    /// Writes a variable at a place.
    fn put(&mut self, place: usize, variable: u32) {
        let v = variable as usize;
        if place < self.entries.len() && place < (1 << 31) && v < self.places.len() {
            self.entries[place] = variable;
            self.places[v] = place as u32;
        }
    }

    /// Whether one variable comes before another.
    fn comes_before(&self, one: u32, other: u32) -> bool {
        let mine = self.activity(one);
        let theirs = self.activity(other);
        mine > theirs || mine == theirs && one > other
    }

    /// Changes a variable's place with that of the one above it, where it comes before that one. Returns where it
    /// stands then.
    fn rise_once(&mut self, place: usize) -> Option<usize> {
        if place == 0 {
            return None;
        }
        let above = (place - 1) / 2;
        let variable = self.at(place);
        let other = self.at(above);
        if !self.comes_before(variable, other) {
            return None;
        }
        self.put(place, other);
        self.put(above, variable);
        Some(above)
    }

    /// Moves a variable up, as far as it comes before those above it.
    fn rise(&mut self, from: usize) {
        let mut place = from;
        for _ in 0..LEVELS {
            match self.rise_once(place) {
                Some(above) => place = above,
                None => break,
            }
        }
    }

    /// The place of the first of the two variables below a place, if one is there.
    fn first_below(&self, place: usize) -> Option<usize> {
        if place >= self.count / 2 {
            return None;
        }
        let left = 2 * place + 1;
        if self.comes_before(self.at(left + 1), self.at(left)) && left + 1 < self.count {
            return Some(left + 1);
        }
        Some(left)
    }

    /// Changes a variable's place with that of the first one below it, where that comes before it. Returns where it
    /// stands then.
    fn sink_once(&mut self, place: usize) -> Option<usize> {
        let Some(below) = self.first_below(place) else {
            return None;
        };
        let variable = self.at(place);
        let other = self.at(below);
        if !self.comes_before(other, variable) {
            return None;
        }
        self.put(place, other);
        self.put(below, variable);
        Some(below)
    }

    /// Moves a variable down, as far as one below comes before it.
    fn sink(&mut self, from: usize) {
        let mut place = from;
        for _ in 0..LEVELS {
            match self.sink_once(place) {
                Some(below) => place = below,
                None => break,
            }
        }
    }

    /// How many variables are in the heap.
    pub(crate) fn count(&self) -> usize {
        self.count
    }

    /// Takes the first variable out. There is none where the answer is 0.
    pub(crate) fn take_first(&mut self) -> u32 {
        let first = self.at(0);
        if self.count == 0 {
            return 0;
        }
        let last = self.at(self.count - 1);
        self.count -= 1;
        self.put(0, last);
        let v = first as usize;
        if v < self.places.len() {
            self.places[v] = NO_PLACE;
        }
        self.sink(0);
        first
    }

    /// Puts a variable in, unless it is there.
    pub(crate) fn insert(&mut self, variable: u32) {
        let v = variable as usize;
        if v == 0 || v >= self.places.len() || self.count >= self.entries.len() {
            return;
        }
        if self.places[v] == NO_PLACE {
            let place = self.count;
            self.count += 1;
            self.put(place, variable);
            self.rise(place);
        }
    }

    /// Makes a variable more active by this much.
    pub(crate) fn add(&mut self, variable: u32, step: u64) {
        let v = variable as usize;
        if v < self.activities.len() {
            self.activities[v] = self.activities[v].saturating_add(step);
        }
        let place = self.place(variable);
        if place < self.count {
            self.rise(place);
        }
    }

    /// Divides all activities by 2^40. Those that come before others do so still, or are as active.
    pub(crate) fn divide(&mut self) {
        for activity in self.activities.iter_mut() {
            *activity >>= 40;
        }
    }
}
