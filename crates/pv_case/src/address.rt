//! Texts that are one address.
ghost use Rattle.std.specs.Prelude.{◌≡◌, ◌+◌, ◌≤◌, ℕ, length, IfOk, IfSome, IfNone};
ghost use Rattle.pv_place.specs.declared.place.Place.{Place as A_place};
ghost use Rattle.pv_lex.specs.declared.token.Language.TheVariants.{Scl as In_scl};
ghost use Rattle.pv_lex.specs.Tokens.{AreTokens};
ghost use Rattle.pv_tree.specs.declared.expr.Area.{Area as An_area};
ghost use Rattle.pv_tree.specs.Things.{is_address};
ghost use Rattle.pv_case.specs.Symbols.{IsAddressText, type_of_width};
ghost use Rattle.pv_case.specs.Addresses.{bytes_at, IsAddressAt, IsAddressAmong};

use crate::members::is_short;
use pv_lex::{Kind, Language, LexFault, Token, tokens};
use pv_parse::area_of;
use pv_place::Place;
use pv_tree::{Area, Root};
use pv_word::Ty;
use std::alloc::{AllocError, Global};

/// An address in a text: of these bits of an area, from this byte on, with the place of its token.
#[derive(Clone, Copy)]
pub(crate) struct Address {
    pub area: Area,
    pub bits: u32,
    pub byte: u64,
    pub bit: u64,
    pub place: Place,
}

/// The address that the text is, where it is one.
pub(crate) fn address_in(alloc: Global, text: &str) -> Result<Option<Address>, AllocError>
    ensures found { IfOk result (λ o. IfSome o (λ s. IsAddressText text.now s.area s.bits s.byte s.bit s.place)) }
    ensures none { IfOk result (λ o. IfNone o ((area : An_area) (bits byte bit : ℕ) (place : A_place)
        → IsAddressText text.now area bits byte bit place → ⊥)) }
{
    if !is_short(text) {
        return Ok(None);
    }
    match tokens(alloc, 0, Language::Scl, text.as_bytes()) {
        Ok(tokens) => Ok(address_of(text.as_bytes(), tokens.as_slice())),
        Err(LexFault::NoToken { .. }) => Ok(None),
        Err(LexFault::NoMemory) => Err(AllocError),
    }
}

/// The address that the tokens are, where they are one and the text's end.
fn address_of(text: &[u8], tokens: &[Token]) -> Option<Address>
    requires { AreTokens In_scl 0 text.now tokens.now }
    ensures found { IfSome result (λ s. IsAddressAmong text.now tokens.now s.area s.bits s.byte s.bit s.place) }
    ensures none { IfNone result ((area : An_area) (bits byte bit : ℕ) (place : A_place)
        → IsAddressAmong text.now tokens.now area bits byte bit place → ⊥) }
{
    match tokens {
        [token, _end] => address_at(text, token),
        _ => None,
    }
}

/// The address that the token is, where it is one.
fn address_at(text: &[u8], token: &Token) -> Option<Address>
    requires { token.now.place.offset + token.now.len ≤ length text.now }
    ensures found { IfSome result (λ s. IsAddressAt text.now token.now s.area s.bits s.byte s.bit s.place) }
    ensures none { IfNone result ((area : An_area) (bits byte bit : ℕ) (place : A_place)
        → IsAddressAt text.now token.now area bits byte bit place → ⊥) }
{
    if token.kind != Kind::Address {
        return None;
    }
    match area_of(bytes_at(text, token)) {
        Root::Area {
            area,
            bits,
            byte,
            bit,
        } if is_address(bits, byte, bit) => Some(Address {
            area,
            bits,
            byte,
            bit,
            place: token.place,
        }),
        _ => None,
    }
}

/// The bytes of a token.
fn bytes_at<'a>(text: &'a [u8], token: &Token) -> &'a [u8]
    requires { token.now.place.offset + token.now.len ≤ length text.now }
    ensures { result.now ≡ bytes_at text.now token.now }
{
    let (_front, rest) = text.split_at(token.place.offset as usize);
    let (bytes, _rest) = rest.split_at(token.len as usize);
    bytes
}

/// Whether all bytes of an address are in its area, and its bit in its byte.
fn is_address(bits: u32, byte: u64, bit: u64) -> bool
    ensures { result ≡ is_address bits byte bit }
{
    if bit > 7 || byte > 65535 {
        return false;
    }
    byte + u64::from(bits.saturating_sub(1) / 8) <= 65535
}

/// The type of this name, where an address of so many bits may be read as it.
#[tactic(auto, unfolding(crate::specs::Symbols::type_of_width))]
pub(crate) fn type_of_width(bits: u32, text: &str) -> Option<Ty>
    ensures { result ≡ type_of_width bits text.now }
{
    match text {
        "BOOL" if bits == 1 => Some(Ty::Bool),
        "BYTE" if bits == 8 => Some(Ty::Byte),
        "WORD" if bits == 16 => Some(Ty::Word),
        "INT" if bits == 16 => Some(Ty::Int),
        "DWORD" if bits == 32 => Some(Ty::Dword),
        "DINT" if bits == 32 => Some(Ty::Dint),
        "TIME" if bits == 32 => Some(Ty::Time),
        _ => None,
    }
}
