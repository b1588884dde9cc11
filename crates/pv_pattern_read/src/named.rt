//! The addresses that texts name.
ghost use Rattle.std.specs.Prelude.{◌≡◌, ◌≤◌, ◌++◌, ◌∷◌, [], length, map, All, IfOk, OnOk, string_bytes};
ghost use Rattle.pv_lex.specs.declared.lex.TheConstants.{MAX_SOURCE};
ghost use Rattle.pv_tree.specs.declared.expr.Root.TheVariants.{Area as InArea};
ghost use Rattle.pv_tree.specs.Tree.{operand, no_steps};
ghost use Rattle.pv_tree.specs.View.{expr_tree, operand_tree};
ghost use Rattle.pv_pattern.specs.Texts as texts;
ghost use Rattle.pv_pattern_read.specs.Naming.{addresses_of, NamesAlso};

use crate::operands::operands_in;
use crate::text::expression_of;
use pv_names::is_address;
use pv_place::Place;
use pv_tree::{Area, Expr, Operand, Root};
use std::alloc::{AllocError, Global};

/// The addresses that the texts of a pattern name, without what stands behind them: those of each text that reads, whatever else is
/// at fault with it. Their bytes have cells.
pub fn named_in(alloc: Global, all: &[String]) -> Result<Vec<Operand>, AllocError>
    requires { All (λ t. length (string_bytes t) ≤ MAX_SOURCE) all.now }
    ensures { IfOk result (λ named. texts.AreNamed (map string_bytes all.now) (map operand_tree named.items)) }
{
    let mut named = Vec::new(alloc);
    for text in all {
        push_named(alloc, &mut named, text.as_str())?;
    }
    Ok(named)
}

/// Those of one text.
fn push_named(alloc: Global, named: &mut Vec<Operand>, text: &str) -> Result<(), AllocError>
    requires { length text.now ≤ MAX_SOURCE }
    ensures { OnOk result (NamesAlso text.now (map operand_tree named.old.items) (map operand_tree named.new.items)) }
{
    match expression_of(alloc, text)? {
        Some(e) => push_addresses(alloc, named, &e),
        None => Ok(()),
    }
}

/// Those of an expression.
fn push_addresses(alloc: Global, named: &mut Vec<Operand>, e: &Expr) -> Result<(), AllocError>
    ensures { OnOk result (map operand_tree named.new.items
        ≡ map operand_tree named.old.items ++ texts.addresses_in (expr_tree e.now)) }
{
    let operands = operands_in(alloc, e)?;
    for operand in operands.as_slice() {
        push_address(alloc, named, operand)?;
    }
    Ok(())
}

/// An address, without what stands behind it.
fn address(
    alloc: Global,
    area: Area,
    bits: u32,
    byte: u64,
    bit: u64,
    place: Place,
) -> Result<Operand, AllocError>
    ensures { IfOk result (λ o. operand_tree o ≡ operand (InArea area bits byte bit) no_steps place) }
{
    let root = Root::Area {
        area,
        bits,
        byte,
        bit,
    };
    let root = Box::new(alloc, root)?;
    Ok(Operand {
        root,
        steps: Vec::new(alloc),
        place,
    })
}

/// An operand, if it is an address.
fn push_address(
    alloc: Global,
    named: &mut Vec<Operand>,
    operand: &Operand,
) -> Result<(), AllocError>
    ensures { OnOk result (map operand_tree named.new.items
        ≡ map operand_tree named.old.items ++ addresses_of (operand_tree operand.now ∷ [])) }
{
    match &*operand.root {
        Root::Area {
            area,
            bits,
            byte,
            bit,
        } => {
            if is_address(*bits, *byte, *bit) {
                let address = address(alloc, *area, *bits, *byte, *bit, operand.place)?;
                named.push(address)?;
            }
            Ok(())
        }
        Root::Local { .. } | Root::Named(_) => Ok(()),
    }
}
