//! Which literals are false while a line is tried.
ghost use Rattle.std.specs.Prelude.{◌≡◌, ℕ, ◌+◌, ◌*◌, ◌≤◌, ◌<◌, Bool, false, List, [], ◌∷◌, ◌++◌, IfOk, vec_capacity};
ghost use Rattle.pv_cnf.specs.Literal.{complement, is_outside};
ghost use Rattle.pv_log.specs.Propagation.{is_false};
ghost use Rattle.pv_log.specs.Assignment.{Partial, Agree};

use std::alloc::{AllocError, Global};
use std::marker::Model;

/// Which literals are false, with a way back. Its memory is taken when it is made.
#[derive(Drop)]
pub(crate) struct Assignment {
    /// The variables are 1 to this number.
    variables: u32,
    /// Whether each literal, by its code, is false.
    marks: Vec<bool>,
    /// The literals made false, in order.
    trail: Vec<u32>,
}

impl Model for Assignment {
    ghost Value = { Partial };

    ghost view = { λ a. record { variables = a.variables; falses = a.trail.items } };

    ghost invariant = { λ a. Agree a.variables a.marks.items a.trail.items × (a.variables ≤ vec_capacity a.trail) };
}

impl Assignment {
    /// No variable has a value.
    pub(crate) fn new(alloc: Global, variables: u32) -> Result<Self, AllocError>
        ensures variables { IfOk result (λ a. a.variables ≡ variables) }
        ensures falses { IfOk result (λ a. a.falses ≡ []) }
    {
        let marks = vec![in alloc; false; 2 * variables as usize + 2]?;
        let trail = Vec::with_capacity(alloc, variables as usize)?;
        Ok(Assignment {
            variables,
            marks,
            trail,
        })
    }

    /// Whether a literal is false.
    pub(crate) fn is_false(&self, lit: u32) -> bool
        requires { lit < 2 * self.now.variables + 2 }
        ensures { result ≡ is_false self.now.falses lit }
    {
        self.marks[lit as usize]
    }

    /// Makes a literal false that has no value.
    pub(crate) fn make_false(&mut self, lit: u32)
        requires inside { is_outside self.old.variables lit ≡ false }
        requires not_false { is_false self.old.falses lit ≡ false }
        requires not_true { is_false self.old.falses (complement lit) ≡ false }
        ensures variables { self.new.variables ≡ self.old.variables }
        ensures falses { self.new.falses ≡ self.old.falses ++ lit ∷ [] }
    {
        self.marks[lit as usize] = true;
        self.trail.push(lit).unwrap();
    }

    /// Takes back each value.
    pub(crate) fn clear(&mut self)
        ensures variables { self.new.variables ≡ self.old.variables }
        ensures falses { self.new.falses ≡ [] }
    {
        while let Some(lit) = self.trail.pop() {
            self.marks[lit as usize] = false;
        }
    }
}
