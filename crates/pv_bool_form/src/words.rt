//! The words that a block declares, by their numbers.
ghost use Rattle.std.specs.Prelude.{◌≡◌, ◌≤◌, ℕ, List, length, map, IfOk};
ghost use Rattle.pv_types.specs.View.{var_tree};
ghost use Rattle.pv_names.specs.Firsts.{number_in};
ghost use Rattle.pv_bool_form.specs.Numbering.{place_of_key};

use pv_names::Firsts;
use pv_tree::{Operand, Root};
use pv_types::{MAX_LEAVES, Name, Var, Vars, one_by_one};
use std::alloc::{AllocError, Global};

/// The words of variables, of which there are no more than a table has cells.
#[derive(Drop)]
pub(crate) struct Words<'b> {
    numbers: Firsts,
    vars: Vec<Var<'b>>,
    ghost few: { length vars.items ≤ 20000 },
    ghost by_name: { (key : List ℕ)
        → number_in numbers key ≡ place_of_key (map var_tree vars.items) key },
}

/// The names of variables with their numbers.
fn numbered(alloc: Global, vars: &[Var]) -> Result<Firsts, AllocError>
    ensures { IfOk result (λ numbers. (key : List ℕ)
        → number_in numbers key ≡ place_of_key (map var_tree vars.now) key) }
{
    let mut numbers = Firsts::new(alloc);
    for (i, var) in vars.iter().enumerate() {
        numbers.push(var.name, i)?;
    }
    Ok(numbers)
}

impl<'b> Words<'b> {
    ghost use Rattle.std.specs.Prelude.{◌↔◌, IsTrue};
    ghost use Rattle.pv_types.specs.View.{var_trees};
    ghost use Rattle.pv_bool_form.specs.Wording.{words_of};
    ghost use Rattle.pv_tree.specs.View.{operand_tree};
    ghost use Rattle.pv_bool_form.specs.FirstForm.{IsFirstRoot};
    ghost use Rattle.pv_bool_form.specs.Numbering.{place_of_root, place_among};

    /// The words of these declarations.
    pub(crate) fn of(alloc: Global, declared: &'b [Vars]) -> Result<Words<'b>, AllocError>
        requires { length (var_trees declared.now) ≤ 20000 }
        ensures { IfOk result (λ words. words_of words ≡ var_trees declared.now) }
    {
        let vars = one_by_one(alloc, declared)?;
        let numbers = numbered(alloc, vars.as_slice())?;
        Ok(Words { numbers, vars })
    }

    /// The variables, in their order.
    pub(crate) fn vars(&self) -> &[Var<'b>]
        ensures { result.now ≡ self.now.vars.items }
    {
        self.vars.as_slice()
    }

    /// The number of the first variable of this name.
    fn find(&self, name: &Name) -> Option<usize>
        ensures { result ≡ place_of_key (words_of self.now) name.now.key }
    {
        self.numbers.find(name)
    }

    /// The number of the variable that the root is the word of, without `#` before it.
    pub(crate) fn root(&self, root: &Root) -> Option<usize>
        ensures { result ≡ place_of_root (words_of self.now) root.now }
    {
        match root {
            Root::Local { name, hash, .. } => { if *hash { None } else { self.find(name) } }
            _ => None,
        }
    }

    /// Whether the root is one of these words, without `#` before it.
    pub(crate) fn has(&self, root: &Root) -> bool
        ensures { IsTrue result ↔ IsFirstRoot (words_of self.now) root.now }
    {
        self.root(root).is_some()
    }

    /// The number of the word that the operand is.
    pub(crate) fn number_of(&self, operand: &Operand) -> u32
        ensures { result ≡ place_among (words_of self.now) (operand_tree operand.now) }
    {
        match self.root(&operand.root) {
            Some(n) => n as u32,
            None => 0,
        }
    }
}
