//! Names with their numbers in a list, of which the first of each name is found.
ghost use Rattle.std.specs.Prelude.{◌≡◌, ◌↔◌, ◌&&◌, ℕ, List, None, Some, OnOk, IfOk, IsTrue, map};
ghost use Rattle.pv_names.specs.Firsts.{number_in, or_number, FindsFirsts, FindsEach};
ghost use Rattle.std.specs.Prelude.{bytes_eq};

use indexmap::IndexMap;
use pv_edge::Text;
use pv_tree::Operand;
use pv_types::{Name, Var};
use pv_word::Ty;
use std::alloc::{AllocError, Global};

/// Names, each with the number of the first element of a list that has it.
#[derive(Drop)]
pub struct Firsts {
    numbers: IndexMap<Text, usize>,
}

/// Whether both are so.
fn both(a: bool, b: bool) -> bool
    ensures { result ≡ (a && b) }
{
    a && b
}

impl Firsts {
    /// No names.
    pub fn new(alloc: Global) -> Firsts
        ensures { (key : List ℕ) → number_in result key ≡ None }
    {
        Firsts {
            numbers: IndexMap::new(alloc),
        }
    }

    /// Puts a name with its number behind the others, unless it is there.
    pub fn push(&mut self, name: &Name, number: usize) -> Result<(), AllocError>
        ensures { OnOk result ((key : List ℕ) → number_in self.new key
            ≡ or_number (number_in self.old key) (bytes_eq key name.now.key) number) }
    {
        let _ = self.push_new(name, number)?;
        Ok(())
    }

    /// The number of the first element of this name.
    pub fn find(&self, name: &Name) -> Option<usize>
        ensures { result ≡ number_in self.now name.now.key }
    {
        match self.numbers.get(name.key()) {
            Some(number) => Some(*number),
            None => None,
        }
    }

    /// Puts a name with its number behind the others, and tells whether it wasn't there.
    fn push_new(&mut self, name: &Name, number: usize) -> Result<bool, AllocError>
        ensures pushed { OnOk result ((key : List ℕ) → number_in self.new key
            ≡ or_number (number_in self.old key) (bytes_eq key name.now.key) number) }
        ensures new { IfOk result (λ new. IsTrue new ↔ (number_in self.old name.now.key ≡ None)) }
    {
        let own = name.key();
        if self.numbers.contains_key(own) {
            return Ok(false);
        }
        let key = own.clone()?;
        self.numbers.insert(key, number)?;
        Ok(true)
    }

    /// The names of variables, and whether no two are the same.
    pub(crate) fn of_vars(alloc: Global, vars: &[Var]) -> Result<(Firsts, bool), AllocError>
        ensures firsts { IfOk result (λ r. FindsFirsts r.0 (map (λ v. v.name.now.key) vars.now)) }
        ensures unique { IfOk result (λ r. IsTrue r.1 ↔ FindsEach r.0 (map (λ v. v.name.now.key) vars.now)) }
    {
        let mut firsts = Firsts {
            numbers: IndexMap::with_capacity(alloc, vars.len())?,
        };
        let mut unique = true;
        for (i, var) in vars.iter().enumerate() {
            let new = firsts.push_new(var.name, i)?;
            unique = both(unique, new);
        }
        Ok((firsts, unique))
    }

    /// The names of symbols.
    pub(crate) fn of_symbols(
        alloc: Global,
        symbols: &[(Name, Operand, Ty)],
    ) -> Result<Firsts, AllocError>
        ensures { IfOk result (λ f. FindsFirsts f (map (λ s. s.0.key) symbols.now)) }
    {
        let mut firsts = Firsts::new(alloc);
        for (i, symbol) in symbols.iter().enumerate() {
            firsts.push(&symbol.0, i)?;
        }
        Ok(firsts)
    }
}
