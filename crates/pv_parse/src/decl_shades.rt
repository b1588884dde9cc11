//! What alternatives of names, literals, declarations and blocks do with what is known of the values on the stack.
ghost use Rattle.std.specs.Prelude.{◌≡◌};
ghost use Rattle.pv_parse.specs.DeclShades.{decl_shading, block_shading};

use crate::action::{BlockAction, DeclAction};
use crate::shade::Shading;

/// So many values as a part.
fn part(count: u8) -> Shading
    ensures { result ≡ Shading.Part count 0 }
{
    Shading::Part { count, drops: 0 }
}

/// So many values as a list or a part of one.
fn group(count: u8) -> Shading
    ensures { result ≡ Shading.Group count 0 }
{
    Shading::Group { count, drops: 0 }
}

/// So many values as one that begins where they do.
fn join(count: u8) -> Shading
    ensures { result ≡ Shading.Join count 0 }
{
    Shading::Join { count, drops: 0 }
}

/// What an alternative of names, literals and declarations does. A type is a part, also one that several variables share.
pub fn decl_shading(action: DeclAction) -> Shading
    ensures { result ≡ decl_shading action }
{
    match action {
        DeclAction::Name => Shading::Join { count: 1, drops: 1 },
        DeclAction::TypeHead | DeclAction::Dropped => Shading::Take(1),
        DeclAction::Number
        | DeclAction::Truth
        | DeclAction::StructHead
        | DeclAction::OwnHead
        | DeclAction::SectionHead
        | DeclAction::ConstHead => join(1),
        DeclAction::Negative => join(2),
        DeclAction::ArrayHead => join(7),
        DeclAction::Declared => join(5),
        DeclAction::Constant => Shading::Join { count: 5, drops: 8 },
        DeclAction::FirstWord => Shading::Group { count: 1, drops: 1 },
        DeclAction::NextWord => Shading::Group { count: 3, drops: 1 },
        DeclAction::Start => group(2),
        DeclAction::NoStart => group(0),
        DeclAction::Simple | DeclAction::Unread | DeclAction::Named => part(1),
        DeclAction::Array | DeclAction::Struct => part(2),
    }
}

/// What an alternative of blocks and the values of data blocks does. The paths of values don't count.
pub fn block_shading(action: BlockAction) -> Shading
    ensures { result ≡ block_shading action }
{
    match action {
        BlockAction::SclBody => Shading::Take(0),
        BlockAction::PathIndex => join(4),
        BlockAction::NoData | BlockAction::NewSource => group(0),
        BlockAction::Name | BlockAction::DataHead => group(1),
        BlockAction::DataOf | BlockAction::BegunBody => group(2),
        BlockAction::Value | BlockAction::Void | BlockAction::Closed => group(3),
        BlockAction::Structure => group(4),
        BlockAction::FunctionBlock
        | BlockAction::Function
        | BlockAction::OrganizationBlock
        | BlockAction::Data => group(5),
        BlockAction::DataValue => Shading::Group { count: 5, drops: 8 },
    }
}
