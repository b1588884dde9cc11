//! Contract tests of `pv_word`, `pv_graph` and `pv_types`.
//!
//! Each public call whose clauses are no equation of what it answers stands here once more, with the library's clauses, by the call itself.
//! An edit of `must-fail` gives a wrong answer in its place.
#![tactic(auto)]

ghost use Rattle.pv_graph.specs.Cycles.{AreOnCycles};
ghost use Rattle.pv_graph.specs.Graphs.{LeadFrom, Leads, lists_of, next_of};
ghost use Rattle.pv_graph.specs.Rounds.{AreEnds};
ghost use Rattle.pv_graph.specs.Steps.{steps_of};
ghost use Rattle.pv_types.specs.Leaves.{leaves_beneath, leaves_of};
ghost use Rattle.pv_types.specs.Named.{types_of, with_type};
ghost use Rattle.pv_types.specs.View.{var_trees};
ghost use Rattle.pv_word.specs.Types.{InRange};
ghost use Rattle.std.specs.Prelude.{IfOk, IsErrOf, IsTrue, OnErr, OnOk, length, ◌<ℤ◌, ◌<◌, ◌↔◌, ◌≡◌, ◌≤◌};

use pv_graph::{Graph, Targets};
use pv_types::{FlattenFault, Leaves, MAX_LEAVES, Name, Types, Vars};
use pv_word::Ty;
use std::alloc::{AllocError, Global};
use std::cmp::Ordering;

/// [`pv_word::compare`].
pub fn compare(a: i128, b: i128) -> Ordering
    ensures less { (result ≡ Ordering.Less) ↔ (a <ℤ b) }
    ensures equal { (result ≡ Ordering.Equal) ↔ (a ≡ b) }
    ensures greater { (result ≡ Ordering.Greater) ↔ (b <ℤ a) }
{
    pv_word::compare(a, b)
}

/// [`pv_word::in_range`].
pub fn in_range(ty: Ty, v: i128) -> bool
    ensures { IsTrue result ↔ InRange ty v }
{
    pv_word::in_range(ty, v)
}

/// [`pv_graph::chain_ends`].
pub fn chain_ends(alloc: Global, next: &[Targets], steps: usize) -> Result<Vec<bool>, AllocError>
    ensures { IfOk result (λ v. AreEnds (lists_of next.now) v.items steps) }
{
    pv_graph::chain_ends(alloc, next, steps)
}

/// [`Graph::leads`].
pub fn leads(graph: &Graph, alloc: Global, from: usize, to: usize) -> Result<bool, AllocError>
    requires { to < length (steps_of graph.now) }
    ensures { IfOk result (λ b. IsTrue b ↔ Leads (steps_of graph.now) from to) }
{
    graph.leads(alloc, from, to)
}

/// [`Graph::is_on_cycle`].
pub fn is_on_cycle(graph: &Graph, alloc: Global, node: usize) -> Result<bool, AllocError>
    requires { node < length (steps_of graph.now) }
    ensures { let g = steps_of graph.now in
        IfOk result (λ b. IsTrue b ↔ LeadFrom g (next_of g node) node) }
{
    graph.is_on_cycle(alloc, node)
}

/// [`Graph::on_cycles`].
pub fn on_cycles(graph: &Graph, alloc: Global) -> Result<Vec<bool>, AllocError>
    ensures { IfOk result (λ v. AreOnCycles (steps_of graph.now) v.items) }
{
    graph.on_cycles(alloc)
}

/// [`pv_types::flatten`].
pub fn flatten(alloc: Global, vars: &[Vars], named: &Types) -> Result<Leaves, FlattenFault>
    ensures leaves { IfOk result (λ leaves. leaves
        ≡ leaves_of (types_of named.now) (var_trees vars.now)) }
    ensures within { OnOk result (length (leaves_of (types_of named.now) (var_trees vars.now)) ≤
        MAX_LEAVES) }
    ensures too_large { IsErrOf result FlattenFault.TooLarge
        → MAX_LEAVES < length (leaves_of (types_of named.now) (var_trees vars.now)) }
{
    pv_types::flatten(alloc, vars, named)
}

/// [`pv_types::flatten_beneath`].
pub fn flatten_beneath(
    alloc: Global,
    path: &[u8],
    vars: &[Vars],
    named: &Types,
) -> Result<Leaves, FlattenFault>
    ensures leaves { IfOk result (λ leaves. leaves
        ≡ leaves_beneath path.now (types_of named.now) (var_trees vars.now)) }
    ensures within { OnOk result (length
        (leaves_beneath path.now (types_of named.now) (var_trees vars.now)) ≤ MAX_LEAVES) }
    ensures too_large { IsErrOf result FlattenFault.TooLarge
        → MAX_LEAVES < length (leaves_beneath path.now (types_of named.now) (var_trees vars.now)) }
{
    pv_types::flatten_beneath(alloc, path, vars, named)
}

/// [`Name::same`].
pub fn same(name: &Name, other: &Name) -> bool
    ensures { IsTrue result ↔ (name.now.key ≡ other.now.key) }
{
    name.same(other)
}

/// [`Types::push`].
pub fn push<'p>(into: &mut Types<'p>, name: &Name, vars: &'p [Vars]) -> Result<(), AllocError>
    ensures pushed { IfOk result (λ _. types_of into.new ≡ with_type (types_of into.old)
        (record { key = name.now.key; vars = var_trees vars.now })) }
    ensures unchanged { OnErr result (types_of into.new ≡ types_of into.old) }
{
    into.push(name, vars)
}
