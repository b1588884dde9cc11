//! The line at hand: the clause that is learned of a conflict, with its hints.
ghost use Rattle.std.specs.Prelude.{◌≡◌, ◌+◌, ◌^◌, ◌<◌, ◌≤◌, [], ◌∷◌, ◌++◌, length, IfOk, vec_len, vec_capacity};
ghost use Rattle.pv_learn.specs.Learning.{HasRoom, KeepsRoom, line_of};

use pv_log::{Line, Numbers};
use std::alloc::{AllocError, Global};
use std::mem;

/// The literals and hints of the line at hand. The memory for the longest one that may follow is taken when it is
/// made: a literal of each variable, and one hint more.
#[derive(Drop)]
pub struct Draft {
    pub lits: Vec<u32>,
    pub hints: Vec<u32>,
}

/// Adds a number for which there is room.
fn add(list: &mut Vec<u32>, number: u32)
    requires { vec_len list.old < vec_capacity list.old }
    ensures items { list.new.items ≡ list.old.items ++ number ∷ [] }
    ensures capacity { vec_capacity list.old ≤ vec_capacity list.new }
{
    list.push(number).unwrap();
}

/// Adds numbers for which there is room.
fn add_all(list: &mut Vec<u32>, numbers: &[u32])
    requires { vec_len list.old + length numbers.now ≤ vec_capacity list.old }
    ensures items { list.new.items ≡ list.old.items ++ numbers.now }
    ensures capacity { vec_capacity list.old ≤ vec_capacity list.new }
{
    list.extend_from_slice(numbers).unwrap();
}

/// Adds a number, unless there is no room for it.
fn put(list: &mut Vec<u32>, number: u32)
    ensures { vec_capacity list.old ≤ vec_capacity list.new }
{
    if list.len() < list.capacity() {
        add(list, number);
    }
}

impl Draft {
    /// No line yet, and room for one over the variables 1 to `variables`.
    pub fn new(alloc: Global, variables: u32) -> Result<Self, AllocError>
        requires { variables < 2 ^ 31 }
        ensures { IfOk result (λ d. HasRoom variables (vec_capacity d.lits) (vec_capacity d.hints)) }
    {
        let lits = Vec::with_capacity(alloc, variables as usize)?;
        let hints = Vec::with_capacity(alloc, variables as usize + 1)?;
        Ok(Draft { lits, hints })
    }

    /// Lets the line go.
    pub(crate) fn clear(&mut self)
        ensures room { KeepsRoom self.old self.new }
    {
        self.lits.clear();
        self.hints.clear();
    }

    /// Adds a literal, unless there is no room for it.
    pub(crate) fn put_lit(&mut self, lit: u32)
        ensures room { KeepsRoom self.old self.new }
    {
        put(&mut self.lits, lit);
    }

    /// Adds a hint, unless there is no room for it.
    pub(crate) fn put_hint(&mut self, hint: u32)
        ensures room { KeepsRoom self.old self.new }
    {
        put(&mut self.hints, hint);
    }

    /// Makes the line one of these literals, and of these hints with one more.
    pub(crate) fn set(&mut self, lits: &[u32], hints: &[u32], last: u32)
        requires lits { length lits.now ≤ vec_capacity self.old.lits }
        requires hints { length hints.now < vec_capacity self.old.hints }
        ensures lits { self.new.lits.items ≡ lits.now }
        ensures hints { self.new.hints.items ≡ hints.now ++ last ∷ [] }
        ensures room { KeepsRoom self.old self.new }
    {
        self.lits.clear();
        self.hints.clear();
        add_all(&mut self.lits, lits);
        add_all(&mut self.hints, hints);
        add(&mut self.hints, last);
    }

    /// The line, in the memory that it lies in. There is no room for another one then.
    pub fn line(&mut self, alloc: Global, id: u32) -> Line
        ensures { result ≡ line_of id self.old.lits.items self.old.hints.items }
    {
        let lits = mem::replace(&mut self.lits, Vec::new(alloc));
        let hints = mem::replace(&mut self.hints, Vec::new(alloc));
        Line {
            id,
            lits: Numbers::from_vec(lits),
            hints: Numbers::from_vec(hints),
        }
    }
}
