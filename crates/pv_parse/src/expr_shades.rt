//! What alternatives of expressions and operands do with what is known of the values on the stack.
ghost use Rattle.std.specs.Prelude.{◌≡◌};
ghost use Rattle.pv_parse.specs.ExprShades.{expr_shading};

use crate::action::ExprAction;
use crate::shade::Shading;

/// So many values as one that is no part.
fn join(count: u8) -> Shading
    ensures { result ≡ Shading.Join count 0 }
{
    Shading::Join { count, drops: 0 }
}

/// So many values as a part.
fn part(count: u8) -> Shading
    ensures { result ≡ Shading.Part count 0 }
{
    Shading::Part { count, drops: 0 }
}

/// What an alternative of expressions and operands does: the operators and the functions have a value for each of their tokens.
pub fn shading(action: ExprAction) -> Shading
    ensures { result ≡ expr_shading action }
{
    match action {
        ExprAction::Word | ExprAction::Quoted | ExprAction::Numbered | ExprAction::Area => join(1),
        ExprAction::NumberedPair => join(2),
        ExprAction::Field => Shading::Join { count: 3, drops: 1 },
        ExprAction::Index => join(4),
        ExprAction::Read | ExprAction::Number | ExprAction::Truth => part(1),
        ExprAction::HashRead | ExprAction::Unary(_) => part(2),
        ExprAction::Paren | ExprAction::Binary(_) | ExprAction::Times | ExprAction::Compare => part(
            3,
        ),
        ExprAction::One => part(4),
        ExprAction::Two => part(10),
        ExprAction::Three => part(14),
    }
}
