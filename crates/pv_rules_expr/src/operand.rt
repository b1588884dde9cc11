//! Operands that break a rule: a name that isn't declared, the value of a function without one, an address that there isn't.
ghost use Rattle.std.specs.Prelude.{◌≡◌, option_map};
ghost use Rattle.pv_tree.specs.Parts as parts;
ghost use Rattle.pv_tree.specs.View.{expr_tree, operand_tree};
ghost use Rattle.pv_names.specs.Views.{thing_tree};
ghost use Rattle.pv_rules_expr.specs.Operands.{name_at, void_where, address_at};

use pv_names::{Thing, is_address, is_void, root_place};
use pv_place::Place;
use pv_tree::{Expr, Operand, Root};

/// The operand that an expression reads.
pub fn operand_of(e: &Expr) -> Option<&Operand>
    ensures { option_map (λ o. operand_tree o.now) result ≡ parts.operand_of (expr_tree e.now) }
{
    match e {
        Expr::Read(operand) => Some(operand),
        Expr::Lit { .. } => None,
        Expr::Unary { .. } => None,
        Expr::Binary { .. } => None,
        Expr::Std { .. } => None,
        Expr::Paren(..) => None,
    }
}

/// The address that an operand is, where there is none such.
pub fn wrong_address(operand: &Operand) -> Option<Place>
    ensures { result ≡ address_at (operand_tree operand.now) }
{
    match &*operand.root {
        Root::Local { .. } => None,
        Root::Named(_) => None,
        Root::Area {
            bits,
            byte,
            bit,
            ..
        } => {
            if is_address(*bits, *byte, *bit) {
                None
            } else {
                Some(operand.place)
            }
        }
    }
}

/// The name that isn't declared.
pub fn name_of_missing(thing: Thing) -> Option<Place>
    ensures { result ≡ name_at (thing_tree thing.entry) }
{
    match thing {
        Thing::NoName(at) => Some(at),
        Thing::Part(_) => None,
        Thing::Constant(_) => None,
        Thing::Block(_) => None,
        Thing::NoArray(_) => None,
        Thing::ADate(_) => None,
        Thing::Untold => None,
    }
}

/// The name of a function without a value that an operand is which means this thing.
pub(crate) fn void_name(thing: Thing, operand: &Operand) -> Option<Place>
    ensures { result ≡ void_where (thing_tree thing.entry) (operand_tree operand.now) }
{
    match thing {
        Thing::Block(entry) => {
            if is_void(entry.block) {
                Some(root_place(&operand.root, operand.place))
            } else {
                None
            }
        }
        Thing::Part(_) => None,
        Thing::Constant(_) => None,
        Thing::NoName(_) => None,
        Thing::NoArray(_) => None,
        Thing::ADate(_) => None,
        Thing::Untold => None,
    }
}
