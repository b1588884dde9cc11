//! Which of its variables a block's calls have to give, and which is the only input.
ghost use Rattle.std.specs.Prelude.{◌≡◌, ◌++◌, [], ◌∷◌, None, IfOk, OnOk, map, option_map};
ghost use Rattle.pv_types.specs.View.{var_tree};
ghost use Rattle.pv_tree.specs.Scopes as scopes;
ghost use Rattle.pv_tree.specs.Callees as callees;
ghost use Rattle.pv_names.specs.Needed.{is_needed_of, needed_among};
ghost use Rattle.pv_names.specs.Params.{sole_input};

use pv_tree::BlockKind;
use pv_types::{Section, Var};
use std::alloc::{AllocError, Global};

/// Whether a block is a function.
pub fn is_fc(kind: &BlockKind) -> bool
    ensures { result ≡ scopes.is_fc kind.now }
{
    matches!(kind, BlockKind::Fc)
}

/// Whether a section is one of inputs.
fn is_input(section: Section) -> bool
    ensures { result ≡ callees.is_input section }
{
    matches!(section, Section::Input)
}

/// Whether a call of blocks of the kind has to give the variables of a section.
fn is_needed(kind: &BlockKind, section: Section) -> bool
    ensures { result ≡ is_needed_of kind.now section }
{
    match section {
        Section::Input => is_fc(kind),
        Section::InOut => true,
        Section::Output | Section::Static | Section::Temp | Section::Const => false,
    }
}

/// Puts a variable behind the others, where calls have to give it.
fn add_needed<'p>(
    needed: &mut Vec<Var<'p>>,
    kind: &BlockKind,
    var: Var<'p>,
) -> Result<(), AllocError>
    ensures { OnOk result (map var_tree needed.new.items
        ≡ map var_tree needed.old.items ++ needed_among kind.now (var_tree var.entry ∷ [])) }
{
    if is_needed(kind, var.of.section) {
        needed.push(var)?;
    }
    Ok(())
}

/// Those among variables that a call of blocks of the kind has to give.
pub(crate) fn needed_among<'p>(
    alloc: Global,
    kind: &BlockKind,
    vars: &[Var<'p>],
) -> Result<Vec<Var<'p>>, AllocError>
    ensures { IfOk result (λ needed. map var_tree needed.items
        ≡ needed_among kind.now (map var_tree vars.now)) }
{
    let mut needed = Vec::new(alloc);
    for var in vars {
        add_needed(&mut needed, kind, *var)?;
    }
    Ok(needed)
}

/// The only input among variables.
pub(crate) fn sole_input<'p>(vars: &[Var<'p>]) -> Option<Var<'p>>
    ensures { option_map var_tree result ≡ sole_input None (map var_tree vars.now) }
{
    let mut found: Option<Var<'p>> = None;
    for var in vars {
        if is_input(var.of.section) {
            match found {
                Some(_) => return None,
                None => found = Some(*var),
            }
        }
    }
    found
}
