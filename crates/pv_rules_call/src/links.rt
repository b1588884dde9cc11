//! Calls by number.
ghost use Rattle.std.specs.Prelude.{◌≡◌, ◌++◌, ◌∷◌, [], IfOk, map, option_map};
ghost use Rattle.pv_tree.specs.Parts.{site};
ghost use Rattle.pv_tree.specs.View.{call_tree};
ghost use Rattle.pv_names.specs.InScope.{scope_of};
ghost use Rattle.pv_names.specs.Callees.{how_tree};
ghost use Rattle.pv_rules_call.specs.Links.{link_of, link_tree};
ghost use Rattle.pv_rules_call.specs.Gathered.{with_sites};

use pv_names::{Callee, How, Scope};
use pv_place::Place;
use pv_tree::CallTree;
use std::alloc::AllocError;

/// A call that runs a block: the place of its first token, and the number of the block, counted from 0 over the blocks of all
/// sources.
#[derive(Drop)]
pub struct Link {
    pub place: Place,
    pub to: usize,
}

/// The calls of a block that run one, in the order in which they stand.
#[derive(Drop)]
pub struct Links {
    pub list: Vec<Link>,
}

/// The link that a call is, if it runs a block.
fn link_of(scope: &Scope, how: How, call: &CallTree) -> Option<Link>
    ensures { option_map link_tree result
        ≡ link_of (scope_of scope.now) (site (how_tree how) (call_tree call.now)) }
{
    match scope.callee_of(how, call) {
        Callee::Runs(entry) => match scope.tables.number_of(&entry.block.name) {
            Some(to) => Some(Link {
                place: call.place,
                to,
            }),
            None => None,
        },
        Callee::NotDeclared(_) => None,
        Callee::NotCallable(_) => None,
        Callee::Unknown => None,
    }
}

/// The links with one more.
fn with_link(links: Vec<Link>, link: Link) -> Result<Vec<Link>, AllocError>
    ensures { IfOk result (λ new. map link_tree new.items
        ≡ map link_tree links.items ++ link_tree link ∷ []) }
{
    let mut all = links;
    all.push(link)?;
    Ok(all)
}

/// The links with that of a call.
pub(crate) fn with_call(
    scope: &Scope,
    links: Vec<Link>,
    how: How,
    call: &CallTree,
) -> Result<Vec<Link>, AllocError>
    ensures { IfOk result (λ new. map link_tree new.items
        ≡ with_sites (scope_of scope.now) (map link_tree links.items)
        (site (how_tree how) (call_tree call.now) ∷ [])) }
{
    match link_of(scope, how, call) {
        Some(link) => with_link(links, link),
        None => Ok(links),
    }
}
