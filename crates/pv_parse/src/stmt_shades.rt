//! What alternatives of calls and statements do with what is known of the values on the stack.
ghost use Rattle.std.specs.Prelude.{◌≡◌};
ghost use Rattle.pv_parse.specs.StmtShades.{call_shading, stmt_shading};

use crate::action::{CallAction, StmtAction};
use crate::shade::Shading;

/// So many values as a part.
fn part(count: u8) -> Shading
    ensures { result ≡ Shading.Part count 0 }
{
    Shading::Part { count, drops: 0 }
}

/// So many values as a list or a part of one.
fn group(count: u8) -> Shading
    ensures { result ≡ Shading.Group count 0 }
{
    Shading::Group { count, drops: 0 }
}

/// So many values as one that begins where they do.
fn join(count: u8) -> Shading
    ensures { result ≡ Shading.Join count 0 }
{
    Shading::Join { count, drops: 0 }
}

/// What an alternative of calls does. The path of an argument's word and that of the called name give their names alone.
pub fn call_shading(action: CallAction) -> Shading
    ensures { result ≡ call_shading action }
{
    match action {
        CallAction::PlainHash | CallAction::QuotedHash => join(2),
        CallAction::NumberedHash | CallAction::PlainSecond | CallAction::QuotedSecond => join(3),
        CallAction::NumberedSecond => join(4),
        CallAction::FirstArgument => Shading::Group { count: 3, drops: 4 },
        CallAction::NextArgument => Shading::Group { count: 5, drops: 4 },
        CallAction::NoArgument => group(0),
        CallAction::Alone => group(1),
        CallAction::Call => Shading::Join { count: 4, drops: 8 },
        CallAction::CallValue | CallAction::ExprValue => Shading::Take(0),
    }
}

/// What an alternative of statements does. The path of a constant's word and that of the variable of FOR give their names alone.
pub fn stmt_shading(action: StmtAction) -> Shading
    ensures { result ≡ stmt_shading action }
{
    match action {
        StmtAction::Drop => Shading::Take(1),
        StmtAction::Empty | StmtAction::Single | StmtAction::Call => part(1),
        StmtAction::Assign => part(3),
        StmtAction::If => part(4),
        StmtAction::While | StmtAction::Repeat => part(5),
        StmtAction::Case => part(6),
        StmtAction::For => Shading::Part {
            count: 10,
            drops: 256,
        },
        StmtAction::NewList
        | StmtAction::NoElse
        | StmtAction::NewBranches
        | StmtAction::Label
        | StmtAction::NoBy => group(0),
        StmtAction::LiteralChoice | StmtAction::FirstChoice => group(1),
        StmtAction::WordChoice => Shading::Group { count: 1, drops: 1 },
        StmtAction::Add | StmtAction::Else | StmtAction::By => group(2),
        StmtAction::FirstArm
        | StmtAction::FirstRange
        | StmtAction::NextChoice
        | StmtAction::Branches => group(3),
        StmtAction::NextArm | StmtAction::NextRange => group(5),
        StmtAction::NextLabel => Shading::Branch { count: 3 },
    }
}
