//! Variables one by one: each name of a declaration with the type that it shares with the others.
ghost use Rattle.std.specs.Prelude.{◌≡◌, ◌∷◌, ◌++◌, [], IfOk, OnOk, IfSome, IfNone, length, nat_le, bytes_eq, find, map, option_map};
ghost use Rattle.pv_types.specs.View.{var_tree, vars_tree, var_trees, word_tree, trees_from, name_of, type_tree};

use crate::declaration::Vars;
use crate::name::Name;
use pv_place::Place;
use std::alloc::{AllocError, Global};

/// A variable: its name with the place of it, and what it is declared with.
#[derive(Clone, Copy)]
pub struct Var<'p> {
    pub name: &'p Name,
    pub place: Place,
    pub of: &'p Vars,
}

/// The variable of one of the names that are declared at once.
pub fn var_of<'p>(of: &'p Vars, word: &'p (Name, Place)) -> Var<'p>
    ensures tree { var_tree result
        ≡ word_tree of.now.section (type_tree of.now.ty) of.now.start word.now }
    ensures shared { result.of.now ≡ of.now }
{
    Var {
        name: &word.0,
        place: word.1,
        of,
    }
}

/// Whether a name that is declared with others is this one.
pub fn is_named(word: &(Name, Place), name: &Name) -> bool
    ensures { result ≡ bytes_eq name.now.key word.now.0.key }
{
    *name == word.0
}

/// The first variable of this name among those that are declared at once.
pub fn named_among<'p>(of: &'p Vars, name: &Name) -> Option<Var<'p>>
    ensures { option_map var_tree result
        ≡ find (λ v. bytes_eq name.now.key (name_of v).key) (vars_tree of.now) }
{
    for word in &of.names {
        if is_named(word, name) {
            return Some(var_of(of, word));
        }
    }
    None
}

/// Puts the variables that are declared at once behind others.
fn push_each<'p>(vars: &mut Vec<Var<'p>>, of: &'p Vars) -> Result<(), AllocError>
    ensures { OnOk result (map var_tree vars.new.items
        ≡ map var_tree vars.old.items ++ vars_tree of.now) }
{
    for word in &of.names {
        vars.push(var_of(of, word))?;
    }
    Ok(())
}

/// The variables of declarations, one by one.
pub fn one_by_one<'p>(alloc: Global, declared: &'p [Vars]) -> Result<Vec<Var<'p>>, AllocError>
    ensures { IfOk result (λ vars. map var_tree vars.items ≡ var_trees declared.now) }
{
    let mut vars = Vec::new(alloc);
    for of in declared {
        push_each(&mut vars, of)?;
    }
    Ok(vars)
}

/// Whether declarations have at most so many variables.
pub fn are_at_most(declared: &[Vars], most: usize) -> bool
    ensures { result ≡ nat_le (length (var_trees declared.now)) most }
{
    let mut left = most;
    for of in declared {
        let count = of.names.len();
        if count > left {
            return false;
        }
        left -= count;
    }
    true
}

/// A variable, and those behind it: of the first of these declarations, which is its own, the names
/// from this number on, and all of the others.
#[derive(Clone, Copy)]
pub(crate) struct First<'p> {
    pub(crate) var: Var<'p>,
    pub(crate) vars: &'p [Vars],
    pub(crate) from: usize,
    /// The declarations behind its own.
    pub(crate) behind: &'p [Vars],
}

/// The first variable of declarations.
fn first_of<'p>(vars: &'p [Vars]) -> Option<First<'p>>
    ensures some { IfSome result (λ first. var_trees vars.now
        ≡ var_tree first.var ∷ trees_from first.vars.now first.from) }
    ensures shared { IfSome result
        (λ first. first.vars.now ≡ first.var.of.now ∷ first.behind.now) }
    ensures none { IfNone result (var_trees vars.now ≡ []) }
{
    let mut left = vars;
    while let Some((of, behind)) = left.split_first() {
        if let Some(word) = of.names.as_slice().first() {
            let var = var_of(of, word);
            return Some(First {
                var,
                vars: left,
                from: 1,
                behind,
            });
        }
        left = behind;
    }
    None
}

/// The first variable of declarations, from a name of the first of them on.
pub(crate) fn first_from<'p>(vars: &'p [Vars], from: usize) -> Option<First<'p>>
    ensures some { IfSome result (λ first. trees_from vars.now from
        ≡ var_tree first.var ∷ trees_from first.vars.now first.from) }
    ensures shared { IfSome result
        (λ first. first.vars.now ≡ first.var.of.now ∷ first.behind.now) }
    ensures none { IfNone result (trees_from vars.now from ≡ []) }
{
    let Some((of, behind)) = vars.split_first() else {
        return None;
    };
    match of.names.as_slice().get(from) {
        Some(word) => {
            let var = var_of(of, word);
            Some(First {
                var,
                vars,
                from: from + 1,
                behind,
            })
        }
        None => first_of(behind),
    }
}
