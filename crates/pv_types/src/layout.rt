//! Declarations laid out: each variable of a simple type, with its path, its type, its start value
//! and its section.
ghost use Rattle.std.specs.Prelude.{◌≡◌, ◌<◌, ◌≤◌, IfOk, IsErrOf, OnOk, length};
ghost use Rattle.pv_types.specs.Named.{types_of};
ghost use Rattle.pv_types.specs.Leaves.{leaves_of, leaves_beneath};
ghost use Rattle.pv_types.specs.View.{var_trees};

use crate::declaration::Vars;
use crate::fault::FlattenFault;
use crate::leaf::Leaves;
use crate::named::Types;
use crate::walk::Walk;
use std::alloc::Global;

/// The greatest number of leaves that declarations may have.
pub const MAX_LEAVES: usize = 20_000;

/// The leaves of a block's variables in the order of their declarations, an array's elements from
/// low to high, structures, named types and instances in place.
///
/// Constants and variables of DATE_AND_TIME have no leaf, and a function block's temporary
/// variables none in its instances. A leaf starts with the value of its own declaration, else with
/// 0.
///
/// `TooLarge` where there are more than [`MAX_LEAVES`].
pub fn flatten(alloc: Global, vars: &[Vars], named: &Types) -> Result<Leaves, FlattenFault>
    ensures leaves { IfOk result (λ leaves. leaves
        ≡ leaves_of (types_of named.now) (var_trees vars.now)) }
    ensures within { OnOk result (length (leaves_of (types_of named.now) (var_trees vars.now)) ≤
        MAX_LEAVES) }
    ensures too_large { IsErrOf result FlattenFault.TooLarge
        → MAX_LEAVES < length (leaves_of (types_of named.now) (var_trees vars.now)) }
{
    flatten_beneath(alloc, b"", vars, named)
}

/// As [`flatten`], with all paths beneath this one, as a data block's are beneath its name.
pub fn flatten_beneath(
    alloc: Global,
    path: &[u8],
    vars: &[Vars],
    named: &Types,
) -> Result<Leaves, FlattenFault>
    ensures leaves { IfOk result (λ leaves. leaves
        ≡ leaves_beneath path.now (types_of named.now) (var_trees vars.now)) }
    ensures within { OnOk result (length
        (leaves_beneath path.now (types_of named.now) (var_trees vars.now)) ≤ MAX_LEAVES) }
    ensures too_large { IsErrOf result FlattenFault.TooLarge
        → MAX_LEAVES < length (leaves_beneath path.now (types_of named.now) (var_trees vars.now)) }
{
    let walk = Walk::new(alloc, path, vars, named.len())?;
    walk.run(alloc, named)
}
