//! The bytes of an area that are named, each marked in a table of all that an area has.
ghost use Rattle.std.specs.Prelude.{◌≡◌, ◌≤◌, ◌<◌, ◌&&◌, ◌||◌, ◌++◌, ◌∷◌, [], ℕ, false, if◌then◌else◌, IfOk, OnOk, length, nat_eq, nat_le};
ghost use Rattle.pv_bytes.specs.declared.marks.TheConstants.{AREA_BYTES};
ghost use Rattle.pv_bytes.specs.Numbers.{flag_at, numbers_from};

use std::alloc::{AllocError, Global};

/// How many bytes an area has.
pub(crate) const AREA_BYTES: usize = 65_536;

/// Marks of the bytes of an area.
#[derive(Drop)]
pub(crate) struct Marks {
    pub(crate) flags: Vec<bool>,
    ghost whole: { length flags.items ≡ AREA_BYTES },
}

/// Puts a number behind others, if it is marked.
fn push_marked(numbers: &mut Vec<u32>, flag: bool, n: u32) -> Result<(), AllocError>
    ensures { OnOk result (numbers.new.items
        ≡ numbers.old.items ++ (if flag then n ∷ [] else [])) }
{
    if flag {
        numbers.push(n)?;
    }
    Ok(())
}

/// As many marks, none of them set.
fn unmarked(alloc: Global, len: usize) -> Result<Vec<bool>, AllocError>
    ensures none { IfOk result (λ v. (k : ℕ) → flag_at v.items k ≡ false) }
    ensures len { IfOk result (λ v. length v.items ≡ len) }
{
    let flags = vec![in alloc; false; len]?;
    Ok(flags)
}

impl Marks {
    /// None is marked.
    pub(crate) fn new(alloc: Global) -> Result<Marks, AllocError>
        ensures { IfOk result (λ m. (k : ℕ) → flag_at m.flags.items k ≡ false) }
    {
        let flags = unmarked(alloc, AREA_BYTES)?;
        Ok(Marks { flags })
    }

    /// Marks a byte.
    fn mark(&mut self, n: usize)
        requires { n < AREA_BYTES }
        ensures { (k : ℕ) → flag_at self.new.flags.items k
            ≡ (flag_at self.old.flags.items k || nat_eq k n) }
    {
        self.flags[n] = true;
    }

    /// Marks the bytes from one to another.
    pub(crate) fn mark_all(&mut self, first: usize, last: usize)
        requires order { first ≤ last }
        requires within { last < AREA_BYTES }
        ensures { (k : ℕ) → flag_at self.new.flags.items k
            ≡ (flag_at self.old.flags.items k || (nat_le first k && nat_le k last)) }
    {
        for n in first..last + 1 {
            self.mark(n);
        }
    }

    /// The numbers of the marked bytes, rising.
    pub(crate) fn numbers(&self, alloc: Global) -> Result<Vec<u32>, AllocError>
        ensures { IfOk result (λ v. v.items ≡ numbers_from 0 self.now.flags.items) }
    {
        let mut numbers = Vec::new(alloc);
        let mut n: u32 = 0;
        for flag in &self.flags {
            push_marked(&mut numbers, *flag, n)?;
            n += 1;
        }
        Ok(numbers)
    }
}
