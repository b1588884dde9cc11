//! In which order variables are decided.
ghost use Rattle.std.specs.Prelude.{◌^◌, ◌<◌};

use crate::heap::Heap;
use std::alloc::{AllocError, Global};

/// In which order variables are decided, and with which value: the one with the greatest activity first,
/// with the value that it had last. Only making it takes memory, and nothing is claimed of what it answers.
#[derive(Drop)]
pub struct Order {
    /// The variables without a value, and perhaps some with one.
    heap: Heap,
    /// For each variable the value that it had last.
    phases: Vec<bool>,
    /// What a conflict adds to an activity.
    step: u64,
}

/// From here on the activities are divided.
const MOST: u64 = 1 << 50;

impl Order {
    /// All variables from 1 to `variables`, with no activity.
    pub fn new(alloc: Global, variables: u32) -> Result<Self, AllocError>
        requires { variables < 2 ^ 31 }
    {
        let heap = Heap::new(alloc, variables)?;
        let phases = vec![in alloc; false; variables as usize + 1]?;
        Ok(Order {
            heap,
            phases,
            step: 1 << 10,
        })
    }

    /// A variable took part in a conflict.
    pub fn bump(&mut self, variable: u32) {
        self.heap.add(variable, self.step);
    }

    /// A conflict is over: what comes later counts more.
    pub fn decay(&mut self) {
        self.step = self.step.saturating_add(self.step / 16);
        if self.step >= MOST {
            self.heap.divide();
            self.step >>= 40;
        }
    }

    /// These literals are no longer false: their variables can be decided again.
    pub fn take_back(&mut self, lits: &[u32]) {
        for lit in lits {
            let v = (*lit / 2) as usize;
            if v < self.phases.len() {
                self.phases[v] = *lit % 2 == 1;
            }
            self.heap.insert(*lit / 2);
        }
    }

    /// How many variables are left to be taken.
    pub fn count(&self) -> usize {
        self.heap.count()
    }

    /// Takes the variable with the greatest activity out. There is none where the answer is 0.
    pub fn take_first(&mut self) -> u32 {
        self.heap.take_first()
    }

    /// The value that a variable had last.
    pub fn last_value(&self, variable: u32) -> bool {
        let v = variable as usize;
        v < self.phases.len() && self.phases[v]
    }
}
