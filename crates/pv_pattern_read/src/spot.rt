//! The spot that an operand names, found once, as its indexes are literals; and the term that reads it.
ghost use Rattle.std.specs.Prelude.{◌≡◌, ◌⊎◌, ◌<◌, ◌^◌, [], IfOk};
ghost use Rattle.pv_tree.specs.Tree.{read, BlockTree, OperandTree};
ghost use Rattle.pv_tree.specs.View.{operand_tree};
ghost use Rattle.pv_mean.specs.Sources.{Source};
ghost use Rattle.pv_mean.specs.Scans.{entry_activation};
ghost use Rattle.pv_mean.specs.Endings.{got};
ghost use Rattle.pv_mean.specs.Spots as m;
ghost use Rattle.pv_mean.specs.Values.{locate};
ghost use Rattle.pv_eval.specs.Operands as operands;
ghost use Rattle.pv_eval.specs.Means.{activation};
ghost use Rattle.pv_eval.specs.Ready.{Locates};
ghost use Rattle.pv_resolve.specs.Contexts.{IsContext, block_in};
ghost use Rattle.pv_pattern.specs.Reads.{bare};
ghost use Rattle.pv_pattern.specs.Terms.{IsTermOf};
ghost use Rattle.pv_pattern_read.specs.Making.{IsSpotTerm};
ghost use Rattle.pv_pattern_read.specs.Readable.{IsReadable, NamesOne, HasTermIn};

use crate::making::one;
use pv_eval::{OneOp, Room, Spot, Target};
use pv_pattern::Term;
use pv_resolve::{Context, ResolveFault};
use pv_tree::Operand;
use pv_word::Ty;
use std::alloc::{AllocError, Global};

/// The spot that a target names where no cell has a value.
fn located(alloc: Global, target: &Target) -> Result<Spot, AllocError>
    requires { NamesOne target.now }
    ensures { (source : Source) (block : BlockTree) (o : OperandTree)
        → Locates source block target.now o
        → IfOk result (λ spot. locate source (activation block 0) bare o ≡ got (operands.spot_of spot)) }
{
    let mut values = vec![in alloc; 0; target.len()]?;
    let room = Room {
        first: 0,
        visible: &[],
        brief: &[],
    };
    match target.locate(&room, values.as_mut_slice()) {
        Ok(spot) => Ok(spot),
        Err(_) => unreachable!(),
    }
}

/// The spot that an operand of the entered block names.
fn spot_of(context: &Context, alloc: Global, operand: &Operand) -> Result<Spot, AllocError>
    requires { HasTermIn context.now (read (operand_tree operand.now)) }
    ensures spot { (source : Source) → IsContext context.now source
        → block_in context.now ≡ source.entry
        → IfOk result (λ spot. locate source (entry_activation source) bare (operand_tree operand.now)
        ≡ got (operands.spot_of spot)) }
    ensures readable { IfOk result (λ spot. IsReadable (operands.spot_of spot)) }
{
    match context.target(alloc, operand) {
        Ok(target) => located(alloc, &target),
        Err(ResolveFault::NoMemory) => Err(AllocError),
        Err(ResolveFault::TooLarge) => unreachable!(),
    }
}

/// The cell of this number.
fn cell(n: usize) -> Term
    requires { n < 2 ^ 32 }
    ensures { IsSpotTerm (m.visible n) result }
{
    match u32::try_from(n) {
        Ok(n) => Term::Cell(n),
        Err(_) => unreachable!(),
    }
}

/// As many bytes from a cell on.
fn bytes(alloc: Global, ty: Ty, n: u32, count: u32) -> Result<Term, AllocError>
    requires { (count ≡ 1) ⊎ ((count ≡ 2) ⊎ (count ≡ 4)) }
    ensures { IfOk result (λ t. IsSpotTerm (m.bytes ty n count) t) }
{
    match count {
        1 => one(alloc, OneOp::Wrap, ty, Term::Byte(n)),
        2 => Ok(Term::Word(ty, n)),
        4 => Ok(Term::Double(ty, n)),
        _ => unreachable!(),
    }
}

/// What reads a spot.
fn term_at(alloc: Global, spot: Spot) -> Result<Term, AllocError>
    requires { IsReadable (operands.spot_of spot) }
    ensures { IfOk result (λ t. IsSpotTerm (operands.spot_of spot) t) }
{
    match spot {
        Spot::Visible(n) => Ok(cell(n)),
        Spot::Brief(..) => unreachable!(),
        Spot::Bit(n, b) => Ok(Term::Bit(n, b)),
        Spot::Bytes(ty, n, count) => bytes(alloc, ty, n, count),
        Spot::Fixed(v) => Ok(Term::Constant(v)),
        Spot::Nowhere => Ok(Term::Constant(0)),
    }
}

/// What reads an operand of the entered block.
pub(crate) fn read_term(
    context: &Context,
    alloc: Global,
    operand: &Operand,
) -> Result<Term, AllocError>
    requires { HasTermIn context.now (read (operand_tree operand.now)) }
    ensures { (source : Source) → IsContext context.now source → block_in context.now ≡ source.entry
        → IfOk result (λ t. IsTermOf source t (read (operand_tree operand.now))) }
{
    let spot = spot_of(context, alloc, operand)?;
    term_at(alloc, spot)
}
