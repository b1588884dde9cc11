//! What a name keeps of its text beside its key: nothing, where the key is that text.
ghost use Rattle.std.specs.Prelude.{◌≡◌, ℕ, List, IfOk};
ghost use Rattle.pv_types.specs.Written.{spelled_by, is_pair};

use pv_edge::Text;
use std::alloc::{AllocError, Global};

/// How a name of some key is written.
#[derive(Drop)]
pub(crate) enum Written {
    /// As the key itself.
    Same,
    /// As the key itself, in two words.
    SamePair,
    /// As this text.
    Other(Box<Text>),
    /// As this text, in two words.
    OtherPair(Box<Text>),
}

/// As the key itself, in two words where it is paired.
fn as_key(paired: bool) -> Written
    ensures spelled { (key : List ℕ) → spelled_by key result ≡ key }
    ensures paired { is_pair result ≡ paired }
{
    if paired {
        Written::SamePair
    } else {
        Written::Same
    }
}

/// As this text, in two words where it is paired.
fn as_text(text: Box<Text>, paired: bool) -> Written
    ensures spelled { (key : List ℕ) → spelled_by key result ≡ text.value }
    ensures paired { is_pair result ≡ paired }
{
    if paired {
        Written::OtherPair(text)
    } else {
        Written::Other(text)
    }
}

/// How a name of this key is written as `spelled`, in two words where it is paired.
pub(crate) fn written_of(
    alloc: Global,
    key: &[u8],
    spelled: &[u8],
    paired: bool,
) -> Result<Written, AllocError>
    ensures spelled { IfOk result (λ w. spelled_by key.now w ≡ spelled.now) }
    ensures paired { IfOk result (λ w. is_pair w ≡ paired) }
{
    if key == spelled {
        return Ok(as_key(paired));
    }
    let text = Text::of(alloc, spelled)?;
    let text = Box::new(alloc, text)?;
    Ok(as_text(text, paired))
}

/// The text that is written so, of this key.
pub(crate) fn spelled_by<'a>(key: &'a [u8], written: &'a Written) -> &'a [u8]
    ensures { result.now ≡ spelled_by key.now written.now }
{
    match written {
        Written::Same => key,
        Written::SamePair => key,
        Written::Other(text) => text.bytes(),
        Written::OtherPair(text) => text.bytes(),
    }
}

/// Whether it is written in two words.
pub(crate) fn is_pair(written: &Written) -> bool
    ensures { result ≡ is_pair written.now }
{
    match written {
        Written::Same => false,
        Written::SamePair => true,
        Written::Other(_) => false,
        Written::OtherPair(_) => true,
    }
}

/// The same once more.
pub(crate) fn copy(written: &Written) -> Result<Written, AllocError>
    ensures spelled { IfOk result (λ w. (key : List ℕ)
        → spelled_by key w ≡ spelled_by key written.now) }
    ensures paired { IfOk result (λ w. is_pair w ≡ is_pair written.now) }
{
    match written {
        Written::Same => Ok(Written::Same),
        Written::SamePair => Ok(Written::SamePair),
        Written::Other(text) => Ok(Written::Other(text.clone()?)),
        Written::OtherPair(text) => Ok(Written::OtherPair(text.clone()?)),
    }
}
