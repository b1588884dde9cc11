//! Tables of some of a block's variables, for blocks in which a name stands twice: elsewhere the first of a name is the only one.
ghost use Rattle.std.specs.Prelude.{◌≡◌, ℕ, List, IfOk, OnOk, map};
ghost use Rattle.pv_types.specs.View.{var_tree};
ghost use Rattle.pv_names.specs.Firsts.{number_in, or_number, first_number};
ghost use Rattle.pv_names.specs.Doubled.{is_of, is_sought, table, FindsDoubled};

use crate::firsts::Firsts;
use crate::param::is_param;
use crate::thing::is_of_instance;
use pv_types::{Name, Section, Var};
use std::alloc::{AllocError, Global};

/// A part of a block's variables: its parameters, or those that an instance has.
#[derive(Clone, Copy)]
pub(crate) enum Part {
    Params,
    Fields,
}

/// The numbers of the first parameters, and of the first variables that an instance has, by their names.
#[derive(Drop)]
pub(crate) struct Doubled {
    params: Firsts,
    fields: Firsts,
}

/// Whether variables of a section are of a part.
pub(crate) fn is_of(part: Part, section: Section) -> bool
    ensures { result ≡ is_of part section }
{
    match part {
        Part::Params => is_param(section),
        Part::Fields => is_of_instance(section),
    }
}

/// Puts a variable's name with its number behind the others, where it is of a part.
fn push_of(firsts: &mut Firsts, part: Part, var: Var, number: usize) -> Result<(), AllocError>
    ensures { OnOk result ((key : List ℕ) → number_in firsts.new key
        ≡ or_number (number_in firsts.old key) (is_sought part key (var_tree var.entry)) number) }
{
    if is_of(part, var.of.section) {
        firsts.push(var.name, number)?;
    }
    Ok(())
}

/// The names of a part of variables.
fn of_part(alloc: Global, part: Part, vars: &[Var]) -> Result<Firsts, AllocError>
    ensures { IfOk result (λ f. (key : List ℕ) → number_in f key
        ≡ first_number (is_sought part key) (map var_tree vars.now)) }
{
    let mut firsts = Firsts::new(alloc);
    for (i, var) in vars.iter().enumerate() {
        push_of(&mut firsts, part, *var, i)?;
    }
    Ok(firsts)
}

impl Doubled {
    /// The tables of variables; they are empty where no two have one name.
    pub(crate) fn of(alloc: Global, unique: bool, vars: &[Var]) -> Result<Doubled, AllocError>
        ensures { IfOk result (λ d. FindsDoubled d unique (map var_tree vars.now)) }
    {
        if unique {
            return Ok(Doubled {
                params: Firsts::new(alloc),
                fields: Firsts::new(alloc),
            });
        }
        let params = of_part(alloc, Part::Params, vars)?;
        let fields = of_part(alloc, Part::Fields, vars)?;
        Ok(Doubled { params, fields })
    }

    /// The number of the first of a part that has this name.
    pub(crate) fn find(&self, part: Part, name: &Name) -> Option<usize>
        ensures { result ≡ number_in (table self.now part) name.now.key }
    {
        match part {
            Part::Params => self.params.find(name),
            Part::Fields => self.fields.find(name),
        }
    }
}
