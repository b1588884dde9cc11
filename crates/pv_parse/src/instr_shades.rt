//! What alternatives of instructions do with what is known of the values on the stack.
ghost use Rattle.std.specs.Prelude.{◌≡◌};
ghost use Rattle.pv_parse.specs.InstrShades.{instr_shading};

use crate::action::InstrAction;
use crate::shade::Shading;

/// So many values as a list or a part of one.
fn group(count: u8) -> Shading
    ensures { result ≡ Shading.Group count 0 }
{
    Shading::Group { count, drops: 0 }
}

/// So many values as one that begins where they do.
fn join(count: u8) -> Shading
    ensures { result ≡ Shading.Join count 0 }
{
    Shading::Join { count, drops: 0 }
}

/// What an alternative of instructions does. The path of a called name and that of a second one give their names alone.
pub fn instr_shading(action: InstrAction) -> Shading
    ensures { result ≡ instr_shading action }
{
    match action {
        InstrAction::NewCode | InstrAction::NoLabel => group(0),
        InstrAction::Begun => group(2),
        InstrAction::Label | InstrAction::Alone => group(3),
        InstrAction::Opening | InstrAction::Operand | InstrAction::Literal | InstrAction::Call =>
            group(4),
        InstrAction::Number | InstrAction::Truth => join(1),
        InstrAction::Negative => join(2),
        InstrAction::Base => Shading::Join { count: 3, drops: 1 },
        InstrAction::Bare => Shading::Join { count: 1, drops: 1 },
    }
}
