//! Values that are held while a call may fail: they are let go here, once for all types, so that no proof above writes out how a
//! tree is let go.
ghost use Rattle.std.specs.Prelude.{◌≡◌, ◌++◌, ◌∷◌, [], Ok, Err, IfOk, MatchResult};

use std::alloc::AllocError;

/// The value beside what the result holds. Where the result holds none, the value is let go.
pub fn with<A: Drop, B, E>(first: A, second: Result<B, E>) -> Result<(A, B), E>
    ensures { MatchResult result (λ both. (both.0 ≡ first) × (second ≡ Ok both.1)) (λ stop. second ≡ Err stop) }
{
    match second {
        Ok(second) => Ok((first, second)),
        Err(stop) => Err(stop),
    }
}

/// The list with one more behind it. A single one takes no room beyond itself, since many lists have no more.
pub fn added<T: Drop>(list: Vec<T>, last: T) -> Result<Vec<T>, AllocError>
    ensures { IfOk result (λ longer. longer.items ≡ list.items ++ last ∷ []) }
{
    let mut longer = list;
    if longer.is_empty() {
        let _ = longer.reserve_exact(1);
    }
    longer.push(last)?;
    Ok(longer)
}
