//! The rules on statements and instructions, over the blocks of a project: the least place at which each is broken.
ghost use Rattle.std.specs.Prelude.{◌≡◌, IfOk, OnOk};
ghost use Rattle.pv_tree.specs.Scopes.{ProjectTree};
ghost use Rattle.pv_names.specs.InScope.{scope_of};
ghost use Rattle.pv_names.specs.Tables.{project_of};
ghost use Rattle.pv_rules_expr.specs.Nearest.{nearer_of};
ghost use Rattle.pv_rules_code.specs.AreInCode.{AreInCode};
ghost use Rattle.pv_rules_code.specs.Nears.{HasProject, HasSites};
ghost use Rattle.pv_rules_code.specs.Sites.{body_place};

use crate::instruction::add_instrs;
use crate::near::{CodeNear, SiteNear, nothing_yet};
use crate::walk::walk_all;
use pv_names::{Scope, Tables};
use pv_place::Place;
use pv_rules_expr::nearer_of;
use pv_tree::Body;
use std::alloc::{AllocError, Global};

/// The nearest places, with those of the block.
fn add_body(scope: &Scope, alloc: Global, near: &mut SiteNear) -> Result<(), AllocError>
    ensures { OnOk result (HasSites (λ what. body_place what (scope_of scope.now))
        near.old near.new) }
{
    match &scope.entry.block.body {
        Body::Scl(list) => walk_all(scope, alloc, &[], list.as_slice(), near),
        Body::Stl(list) => add_instrs(scope, alloc, list.as_slice(), near),
        Body::Starts(_) => Ok(()),
    }
}

/// The nearest places in the blocks of a project.
fn near_sites<'p>(alloc: Global, tables: &'p Tables<'p>) -> Result<SiteNear, AllocError>
    ensures { IfOk result (λ n. HasProject (project_of tables.now) n) }
{
    let mut near = nothing_yet();
    for entry in tables.entries() {
        let scope = Scope { tables, entry };
        add_body(&scope, alloc, &mut near)?;
    }
    Ok(near)
}

/// The nearest of three places.
fn nearest_of(a: Option<Place>, b: Option<Place>, c: Option<Place>) -> Option<Place>
    ensures { result ≡ nearer_of a (nearer_of b c) }
{
    nearer_of(a, nearer_of(b, c))
}

/// The nearest places by the rules that they break.
fn by_rules(n: SiteNear) -> CodeNear
    ensures { (project : ProjectTree) → HasProject project n → AreInCode project result }
{
    let written = nearest_of(n.counted, n.asks.args.counter, n.counts.inner);
    let counter = nearer_of(n.counts.other, written);
    let named = nearer_of(n.parts.missing, n.aims.missing);
    let word = nearest_of(n.asks.missing, n.counts.missing, n.picks.missing);
    let missing = nearer_of(named, word);
    let stated = nearest_of(n.misfit, n.counts.date, n.picks.date);
    let passed = nearer_of(n.asks.args.misfit, n.asks.date);
    let misfit = nearest_of(n.parts.misapplied, stated, passed);
    let argument = nearest_of(n.asks.args.unknown, n.asks.later, n.asks.lacking);
    let outside = nearest_of(n.parts.outside, n.strides.outside, n.picks.outside);
    let choice = nearer_of(n.selector, n.picks.other);
    let address = nearer_of(n.parts.address, n.aims.address);
    let misused = nearer_of(n.parts.misused, n.aims.misused);
    let beyond = nearer_of(n.parts.beyond, n.aims.beyond);
    CodeNear {
        condition: n.condition,
        leave: n.leave,
        target: n.aims.fixed,
        output: n.asks.args.output,
        counter,
        step: n.strides.wrong,
        choice,
        argument,
        address,
        missing,
        misfit,
        outside,
        misused,
        beyond,
        void: n.parts.void,
    }
}

/// Of each rule the nearest place at which the statements and instructions of a project break it.
pub fn nearest_in_code<'p>(alloc: Global, tables: &'p Tables<'p>) -> Result<CodeNear, AllocError>
    ensures { IfOk result (λ n. AreInCode (project_of tables.now) n) }
{
    let near = near_sites(alloc, tables)?;
    Ok(by_rules(near))
}
