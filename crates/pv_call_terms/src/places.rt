//! Where the variables of a block at work lie.
ghost use Rattle.std.specs.Prelude.{◌≡◌, ℕ, ◌+◌, ◌-◌, ◌<◌, slice_index_or, IfOk};
ghost use Rattle.pv_call_terms.specs.Numbers.{narrow};
ghost use Rattle.pv_call_terms.specs.Places.{place_of, IsEntry, IsCallee};

use crate::numbers::{narrow, number_at};
use pv_flow::{CallEdge, Parts};
use std::alloc::{AllocError, Global};

/// Where the variables of a block at work lie: a number for each bound one, and for the shared ones and the block's own the first of them
/// and where that lies. Numbers beyond 32 bits are as the greatest.
#[derive(Drop)]
pub struct Places {
    /// Where each bound variable lies.
    bound: Vec<u32>,
    /// The first shared variable.
    shared: u64,
    /// Where it lies.
    shared_at: u32,
    /// The block's first own variable.
    own: u64,
    /// Where it lies.
    own_at: u32,
}

/// Where the variable lies that is so many behind the first of its kind.
fn behind(first_at: u32, count: u64) -> u32
    ensures { result ≡ narrow (first_at + count) }
{
    narrow((first_at as u64).saturating_add(count))
}

/// The bound variables of a block that is the entry.
fn own_numbers(alloc: Global, count: u32) -> Result<Vec<u32>, AllocError>
    ensures { IfOk result (λ made. (x : ℕ) → x < count → slice_index_or made.items x 0 ≡ x) }
{
    let mut made = Vec::new(alloc);
    for x in 0..count {
        made.push(x)?;
    }
    Ok(made)
}

impl Places {
    /// Where the variable of this number lies.
    pub fn place(&self, x: u64) -> u32
        ensures { result ≡ place_of self.now x }
    {
        if x < self.shared {
            return number_at(self.bound.as_slice(), x as usize);
        }
        if x < self.own {
            return behind(self.shared_at, x - self.shared);
        }
        behind(self.own_at, x - self.own)
    }

    /// Those of the entry: each at its own number.
    pub fn of_entry(alloc: Global, parts: &Parts) -> Result<Places, AllocError>
        ensures { IfOk result (IsEntry parts.now.bound parts.now.shared) }
    {
        let bound = own_numbers(alloc, parts.bound)?;
        let own = parts.bound as u64 + parts.shared as u64;
        Ok(Places {
            bound,
            shared: parts.bound as u64,
            shared_at: parts.bound,
            own,
            own_at: narrow(own),
        })
    }

    /// Where the bound variables lie of a block that a call edge of this one runs.
    fn passed(&self, alloc: Global, instance: u32, count: u32) -> Result<Vec<u32>, AllocError>
        ensures { IfOk result (λ made. (x : ℕ) → x < count
            → slice_index_or made.items x 0 ≡ place_of self.now (instance + x)) }
    {
        let mut made = Vec::new(alloc);
        for x in 0..count {
            made.push(self.place(instance as u64 + x as u64))?;
        }
        Ok(made)
    }

    /// Those of a block that a call edge of this one runs, whose own variables lie from the number `own_at` on.
    pub fn of_callee(
        &self,
        alloc: Global,
        call: &CallEdge,
        callee: &Parts,
        own_at: u32,
    ) -> Result<Places, AllocError>
        ensures { IfOk result (IsCallee self.now call.now.instance callee.now.bound callee.now.shared own_at) }
    {
        let bound = self.passed(alloc, call.instance, callee.bound)?;
        Ok(Places {
            bound,
            shared: callee.bound as u64,
            shared_at: self.shared_at,
            own: callee.bound as u64 + callee.shared as u64,
            own_at,
        })
    }
}
