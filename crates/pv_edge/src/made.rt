//! How a text is made.
ghost use Rattle.std.specs.Prelude.{◌≡◌, IfOk, IfSome};

use crate::words::Text;
use std::alloc::{AllocError, Global};

/// The text of these bytes. The one error is want of memory.
pub fn text(alloc: Global, bytes: &[u8]) -> Result<Text, AllocError>
    ensures { IfOk result (λ text. text ≡ bytes.now) }
{
    Text::of(alloc, bytes)
}

/// A copy of a name, none where memory ends.
pub(crate) fn told_name(alloc: Global, name: &str) -> Option<Text>
    ensures { IfSome result (λ told. told ≡ name.now) }
{
    text(alloc, name.as_bytes()).ok()
}
