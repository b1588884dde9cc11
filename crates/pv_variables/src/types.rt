//! The named types of a project, over which declarations are laid out.
ghost use Rattle.std.specs.Prelude.{◌≡◌, [], IfOk, OnOk, map};
ghost use Rattle.pv_types.specs.Named.{types_of};
ghost use Rattle.pv_tree.specs.NamedTypes.{types_of_project};
ghost use Rattle.pv_tree.specs.Scopes as scopes;
ghost use Rattle.pv_tree.specs.View.{block_tree};
ghost use Rattle.pv_mean.specs.ProjectSizes.{project_tree, with_block, with_blocks};

use pv_tree::{Block, BlockKind, Project};
use pv_types::Types;
use std::alloc::{AllocError, Global};

/// Whether blocks of the kind are types.
fn is_type(kind: &BlockKind) -> bool
    ensures { result ≡ scopes.is_type kind.now }
{
    matches!(kind, BlockKind::Fb | BlockKind::Udt)
}

/// Puts a block behind the types, if it is one.
fn add_block<'p>(types: &mut Types<'p>, block: &'p Block) -> Result<(), AllocError>
    ensures { OnOk result (types_of types.new ≡ with_block (types_of types.old) (block_tree block.now)) }
{
    if is_type(&block.kind) {
        types.push(&block.name, block.interface.vars.as_slice())?;
    }
    Ok(())
}

/// The types among the blocks.
fn types_among<'p>(alloc: Global, blocks: &'p [Block]) -> Result<Types<'p>, AllocError>
    ensures { IfOk result (λ types. types_of types ≡ with_blocks [] (map block_tree blocks.now)) }
{
    let mut types = Types::new(alloc);
    for block in blocks {
        add_block(&mut types, block)?;
    }
    Ok(types)
}

/// The function blocks and named structures of a project.
pub fn named_types<'p>(alloc: Global, project: &'p Project) -> Result<Types<'p>, AllocError>
    ensures { IfOk result (λ types. types_of types ≡ types_of_project (project_tree project.now)) }
{
    types_among(alloc, project.blocks().list.as_slice())
}
