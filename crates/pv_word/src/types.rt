//! The types and their ranges.
ghost use Rattle.std.specs.Prelude.{◌≡◌, ◌↔◌, ℕ, ◌^◌, pos, IsTrue};
ghost use Rattle.pv_word.specs.Types.{width_of, is_signed_of, least_of, greatest_of, InRange};

/// An elementary type of a block. Its values are whole numbers.
#[derive(Clone, Copy, PartialEq, Eq, Debug)]
pub enum Ty {
    /// One bit, 0 or 1.
    Bool,
    /// 8 bits, from 0.
    Byte,
    /// 16 bits, from 0.
    Word,
    /// 32 bits, from 0.
    Dword,
    /// 16 bits, signed.
    Int,
    /// 32 bits, signed.
    Dint,
    /// 32 bits, signed: a duration in milliseconds.
    Time,
}

/// The number of bits of a value.
pub fn width(ty: Ty) -> u32
    ensures { result ≡ width_of ty }
{
    match ty {
        Ty::Bool => 1,
        Ty::Byte => 8,
        Ty::Word | Ty::Int => 16,
        Ty::Dword | Ty::Dint | Ty::Time => 32,
    }
}

/// Whether values are signed, in two's complement.
pub fn is_signed(ty: Ty) -> bool
    ensures { result ≡ is_signed_of ty }
{
    match ty {
        Ty::Int | Ty::Dint | Ty::Time => true,
        Ty::Bool | Ty::Byte | Ty::Word | Ty::Dword => false,
    }
}

/// 2 to the power of the width: how many values the type has.
pub(crate) fn modulus(ty: Ty) -> i128
    ensures { result ≡ pos (2 ^ width_of ty) }
{
    1 << width(ty)
}

/// The least value.
pub fn least(ty: Ty) -> i128
    ensures { result ≡ least_of ty }
{
    if is_signed(ty) { -(modulus(ty) / 2) } else { 0 }
}

/// The greatest value.
pub fn greatest(ty: Ty) -> i128
    ensures { result ≡ greatest_of ty }
{
    least(ty) + modulus(ty) - 1
}

/// Whether `v` is a value of the type.
pub fn in_range(ty: Ty, v: i128) -> bool
    ensures { IsTrue result ↔ InRange ty v }
{
    least(ty) <= v && v <= greatest(ty)
}
