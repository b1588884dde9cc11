//! Start values, over the blocks of a project: each function gives the least place at which a rule is broken there.
ghost use Rattle.std.specs.Prelude.{◌≡◌, IfOk, None};
ghost use Rattle.pv_tree.specs.Interfaces.{all_vars};
ghost use Rattle.pv_names.specs.InScope.{scope_of};
ghost use Rattle.pv_rules_expr.specs.Nearest.{IsNearest};
ghost use Rattle.pv_tree.specs.Rules.Misfits.{start_misfits_type};
ghost use Rattle.pv_tree.specs.Rules.OutOfRange.{start_is_outside};
ghost use Rattle.pv_rules_decl.specs.Starts.{near_vars};
ghost use Rattle.pv_rules_decl.specs.StartPieces.{piece_in, piece_place, InBlocks, MisfitsStart, HasOutsideStart};
ghost use Rattle.pv_names.specs.Tables.{project_of};

use crate::gathered::Gathered;
use crate::starts::{misfit_starts, outside_starts};
use pv_names::{Scope, Tables};
use pv_place::Place;
use pv_rules_expr::nearer_of;
use std::alloc::{AllocError, Global};

/// What is looked for in a block's declarations.
#[derive(Clone, Copy)]
pub enum Piece {
    /// A start value that doesn't fit.
    MisfitStart,
    /// A start value outside its type.
    OutsideStart,
}

/// The nearest start value in the block's declarations that doesn't fit.
fn misfit_in_block(scope: &Scope, alloc: Global) -> Result<Option<Place>, AllocError>
    ensures { let scope = scope_of scope.now in IfOk result (λ o. o
        ≡ near_vars (start_misfits_type scope) (all_vars scope.block.vars) None) }
{
    let gathered = Gathered::of(alloc, scope.entry.block.interface.vars.as_slice())?;
    Ok(misfit_starts(scope, gathered.vars.as_slice(), None))
}

/// The nearest start value in the block's declarations that is outside its type.
fn outside_in_block(scope: &Scope, alloc: Global) -> Result<Option<Place>, AllocError>
    ensures { let scope = scope_of scope.now in IfOk result (λ o. o
        ≡ near_vars start_is_outside (all_vars scope.block.vars) None) }
{
    let gathered = Gathered::of(alloc, scope.entry.block.interface.vars.as_slice())?;
    Ok(outside_starts(gathered.vars.as_slice(), None))
}

/// The nearest place in the block.
fn piece_in_block(scope: &Scope, alloc: Global, what: Piece) -> Result<Option<Place>, AllocError>
    ensures { IfOk result (λ o. o ≡ piece_in what (scope_of scope.now)) }
{
    match what {
        Piece::MisfitStart => misfit_in_block(scope, alloc),
        Piece::OutsideStart => outside_in_block(scope, alloc),
    }
}

/// The nearest place in the blocks of a project.
fn nearest_piece<'p>(
    alloc: Global,
    tables: &'p Tables<'p>,
    what: Piece,
) -> Result<Option<Place>, AllocError>
    ensures { IfOk result (λ o. o ≡ piece_place what (project_of tables.now)) }
{
    let mut best = None;
    for entry in tables.entries() {
        let scope = Scope { tables, entry };
        let found = piece_in_block(&scope, alloc, what)?;
        best = nearer_of(best, found);
    }
    Ok(best)
}

/// The least place of a start value that doesn't fit its declaration.
pub fn misfit_start<'p>(alloc: Global, tables: &'p Tables<'p>) -> Result<Option<Place>, AllocError>
    ensures { IfOk result (IsNearest (InBlocks MisfitsStart (project_of tables.now))) }
{
    nearest_piece(alloc, tables, Piece::MisfitStart)
}

/// The least place of a start value outside its type.
pub fn outside_start<'p>(alloc: Global, tables: &'p Tables<'p>) -> Result<Option<Place>, AllocError>
    ensures { IfOk result (IsNearest (InBlocks HasOutsideStart (project_of tables.now))) }
{
    nearest_piece(alloc, tables, Piece::OutsideStart)
}
