//! Terms of bits and bytes of areas.
ghost use Rattle.std.specs.Prelude.{◌≡◌, IfOk};
ghost use Rattle.pv_word.specs.declared.types.Ty.TheVariants.{Byte};
ghost use Rattle.pv_flow.specs.Terms as terms;
ghost use Rattle.pv_terms.specs.Pushed.{IsTable, IsAt, Puts};
ghost use Rattle.pv_access.specs.Accesses as accesses;

use crate::numbers::{added, other_bits, times};
use pv_flow::{BinaryOp as Two, Node, UnaryOp as One};
use pv_terms::{TermFault, converted, push_binary, push_constant, push_unary, push_variable};
use pv_word::Ty;

/// So many places lower; none is no operator.
pub(crate) fn push_right(nodes: &mut Vec<Node>, ty: Ty, n: u32, a: u32) -> Result<u32, TermFault>
    ensures { (t : terms.Term) → IsTable nodes.old.items → IsAt nodes.old.items a t
        → IfOk result (λ r. Puts nodes.old.items nodes.new.items r (accesses.right_by ty n t)) }
{
    if n == 0 {
        return Ok(a);
    }
    push_unary(nodes, One::Right(n), ty, a)
}

/// So many places higher; none is no operator.
fn push_left(nodes: &mut Vec<Node>, ty: Ty, n: u32, a: u32) -> Result<u32, TermFault>
    ensures { (t : terms.Term) → IsTable nodes.old.items → IsAt nodes.old.items a t
        → IfOk result (λ r. Puts nodes.old.items nodes.new.items r (accesses.left_by ty n t)) }
{
    if n == 0 {
        return Ok(a);
    }
    push_unary(nodes, One::Left(n), ty, a)
}

/// A bit of the byte in a variable.
pub(crate) fn push_bit(nodes: &mut Vec<Node>, n: u32, b: u32) -> Result<u32, TermFault>
    ensures { IsTable nodes.old.items
        → IfOk result (λ r. Puts nodes.old.items nodes.new.items r (accesses.bit_term n b)) }
{
    let byte = push_variable(nodes, n)?;
    let low = push_right(nodes, Ty::Byte, b, byte)?;
    converted(nodes, Ty::Byte, Ty::Bool, low)
}

/// The byte in a variable without this bit.
fn push_others(nodes: &mut Vec<Node>, n: u32, b: u32) -> Result<u32, TermFault>
    ensures { IsTable nodes.old.items
        → IfOk result (λ r. Puts nodes.old.items nodes.new.items r (accesses.others_term n b)) }
{
    let byte = push_variable(nodes, n)?;
    let bits = other_bits(b)?;
    let mask = push_constant(nodes, Ty::Byte, bits)?;
    push_binary(nodes, Two::And, Ty::Byte, byte, mask)
}

/// A BOOL in the place of this bit.
fn push_placed(nodes: &mut Vec<Node>, b: u32, value: u32) -> Result<u32, TermFault>
    ensures { (t : terms.Term) → IsTable nodes.old.items → IsAt nodes.old.items value t
        → IfOk result (λ r. Puts nodes.old.items nodes.new.items r (accesses.left_by Byte b (accesses.wide_bit t))) }
{
    let wide = converted(nodes, Ty::Bool, Ty::Byte, value)?;
    push_left(nodes, Ty::Byte, b, wide)
}

/// The byte in a variable with a BOOL as this bit.
pub(crate) fn push_with_bit(
    nodes: &mut Vec<Node>,
    n: u32,
    b: u32,
    value: u32,
) -> Result<u32, TermFault>
    ensures { (t : terms.Term) → IsTable nodes.old.items → IsAt nodes.old.items value t
        → IfOk result (λ r. Puts nodes.old.items nodes.new.items r (accesses.with_bit_term n b t)) }
{
    let others = push_others(nodes, n, b)?;
    let own = push_placed(nodes, b, value)?;
    push_binary(nodes, Two::Or, Ty::Byte, others, own)
}

/// The type of the pattern that so many bytes are.
pub(crate) fn pattern_type(count: u32) -> Ty
    ensures { result ≡ accesses.pattern_type count }
{
    if count <= 1 {
        Ty::Byte
    } else if count <= 2 {
        Ty::Word
    } else {
        Ty::Dword
    }
}

/// The byte in a variable, so many bytes from the lowest.
fn push_byte(nodes: &mut Vec<Node>, ty: Ty, n: u32, k: u32) -> Result<u32, TermFault>
    ensures { IsTable nodes.old.items
        → IfOk result (λ r. Puts nodes.old.items nodes.new.items r (accesses.byte_term ty n k)) }
{
    let places = times(8, k)?;
    let byte = push_variable(nodes, n)?;
    let wide = converted(nodes, Ty::Byte, ty, byte)?;
    push_left(nodes, ty, places, wide)
}

/// So many bytes behind the pattern of those before.
fn push_behind(
    nodes: &mut Vec<Node>,
    ty: Ty,
    n: u32,
    count: u32,
    before: u32,
) -> Result<u32, TermFault>
    ensures { (t : terms.Term) → IsTable nodes.old.items → IsAt nodes.old.items before t
        → IfOk result (λ r. Puts nodes.old.items nodes.new.items r (accesses.bytes_behind ty n count t)) }
{
    if count == 0 {
        return Ok(before);
    }
    let next = added(n, 1)?;
    let byte = push_byte(nodes, ty, n, count - 1)?;
    let so_far = push_binary(nodes, Two::Or, ty, before, byte)?;
    push_behind(nodes, ty, next, count - 1, so_far)
}

/// The pattern of so many bytes.
fn push_pattern(nodes: &mut Vec<Node>, ty: Ty, n: u32, count: u32) -> Result<u32, TermFault>
    ensures { IsTable nodes.old.items
        → IfOk result (λ r. Puts nodes.old.items nodes.new.items r (accesses.pattern_term ty n count)) }
{
    if count == 0 {
        return push_constant(nodes, ty, 0);
    }
    let next = added(n, 1)?;
    let first = push_byte(nodes, ty, n, count - 1)?;
    push_behind(nodes, ty, next, count - 1, first)
}

/// So many bytes, at most four, as a value of a type.
pub(crate) fn push_bytes(
    nodes: &mut Vec<Node>,
    own: Ty,
    n: u32,
    count: u32,
) -> Result<u32, TermFault>
    ensures { IsTable nodes.old.items
        → IfOk result (λ r. Puts nodes.old.items nodes.new.items r (accesses.bytes_term own n count)) }
{
    if count > 4 {
        return Err(TermFault::TooLarge);
    }
    let ty = pattern_type(count);
    let pattern = push_pattern(nodes, ty, n, count)?;
    converted(nodes, ty, own, pattern)
}
