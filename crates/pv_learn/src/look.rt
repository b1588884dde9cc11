//! What a clause is where some literals are false.
ghost use Rattle.std.specs.Prelude.{◌≡◌, ◌≤◌, false, length, take};
ghost use Rattle.pv_cnf.specs.Clause.{has_outside};
ghost use Rattle.pv_learn.specs.Learning.{Shows};

use pv_cnf::flip;
use pv_watch::Trail;

/// What a clause is where some literals are false.
#[derive(Clone, Copy, Debug, PartialEq, Eq)]
pub enum Look {
    /// It has a literal that is true, or two that aren't false.
    Quiet,
    /// All literals but this one are false, and it has no value.
    Unit(u32),
    /// All literals are false.
    False,
}

/// What a clause is where the first `upto` literals of the trail are false.
pub fn look_at(trail: &Trail, upto: usize, clause: &[u32]) -> Look
    requires inside { has_outside trail.now.variables clause.now ≡ false }
    requires there { upto ≤ length trail.now.falses }
    ensures { Shows (take upto trail.now.falses) clause.now result }
{
    let mut left = None;
    for lit in clause {
        if trail.is_false_at(upto, *lit) {
            continue;
        }
        match left {
            None => left = Some(*lit),
            Some(_) => return Look::Quiet,
        }
    }
    match left {
        None => Look::False,
        Some(lit) => {
            if trail.is_false_at(upto, flip(lit)) {
                Look::Quiet
            } else {
                Look::Unit(lit)
            }
        }
    }
}
