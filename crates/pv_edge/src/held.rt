//! Where a text keeps its bytes.
ghost use Rattle.std.specs.Prelude.{◌≡◌, IfOk, IfSome, take};
ghost use Rattle.std.specs.Str.{str_to_ascii_lowercase};
ghost use Rattle.pv_edge.specs.Held.{held_bytes};

use std::alloc::{AllocError, Global};

/// So many bytes lie in the text itself, which is then as large as one that holds a vector.
const SHORT: usize = 30;

/// The first `len` of these bytes, or a vector's.
#[derive(Drop)]
pub(crate) enum Held {
    Short { len: u8, bytes: [u8; SHORT] },
    Long(Vec<u8>),
}

impl Held {
    /// These bytes, in a vector only where there are more than lie in the text itself.
    pub(crate) fn of(alloc: Global, bytes: &[u8]) -> Result<Held, AllocError>
        ensures { IfOk result (λ held. held_bytes held ≡ bytes.now) }
    {
        match short(bytes) {
            Some(held) => Ok(held),
            None => Ok(Held::Long(Vec::from_slice(alloc, bytes)?)),
        }
    }

    /// The bytes.
    pub(crate) fn bytes(&self) -> &[u8]
        ensures { result.now ≡ held_bytes self.now }
    {
        match self {
            Held::Short { len, bytes } => first(bytes, *len),
            Held::Long(bytes) => bytes.as_slice(),
        }
    }

    /// Brings each ASCII letter to lower case.
    pub(crate) fn make_ascii_lowercase(&mut self)
        ensures { held_bytes self.new ≡ str_to_ascii_lowercase (held_bytes self.old) }
    {
        match self {
            Held::Short { bytes, .. } => bytes.make_ascii_lowercase(),
            Held::Long(bytes) => bytes.as_mut_slice().make_ascii_lowercase(),
        }
    }
}

impl Clone for Held {
    ghost is_clone = { λ held copy. held_bytes copy ≡ held_bytes held };

    fn clone(&self) -> Result<Held, AllocError> {
        match self {
            Held::Short { len, bytes } => Ok(Held::Short {
                len: *len,
                bytes: *bytes,
            }),
            Held::Long(bytes) => Held::of(*bytes.allocator(), bytes.as_slice()),
        }
    }
}

/// The bytes, where they are few enough.
fn short(bytes: &[u8]) -> Option<Held>
    ensures { IfSome result (λ held. held_bytes held ≡ bytes.now) }
{
    let len = bytes.len();
    if len > SHORT {
        return None;
    }
    let mut held = [0; SHORT];
    held[..len].copy_from_slice(bytes);
    Some(Held::Short {
        len: len as u8,
        bytes: held,
    })
}

/// The first `len` of these bytes, all where there are fewer.
fn first(bytes: &[u8], len: u8) -> &[u8]
    ensures { result.now ≡ take len bytes.now }
{
    &bytes[..usize::from(len).min(bytes.len())]
}
