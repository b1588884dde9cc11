//! What happens along a walk, and the stack of what is still to be walked.
ghost use Rattle.std.specs.Prelude.{◌≡◌, ◌+◌, ◌<◌, ◌≤◌, ◌++◌, ◌∷◌, [], length, map, vec_len, vec_capacity, IfSome, IfNone, OnOk};
ghost use Rattle.pv_ll.specs.declared.table.Alternative.{Alternative};
ghost use Rattle.pv_ll.specs.Facts.{Selects};
ghost use Rattle.pv_ll.specs.Turns.{acts_at};
ghost use Rattle.pv_ll.specs.Reading.{places_of, entered};

use crate::table::{Language, Symbol, body};
use std::alloc::AllocError;

/// What happens along the walk through a text's derivation.
#[derive(Clone, Copy, Debug, PartialEq, Eq)]
pub enum Turn {
    /// The next token is passed.
    Pass,
    /// All that the alternative with this number derives was walked.
    Leave(u16),
}

/// What is still to be walked: a symbol, or the end of an alternative.
#[derive(Clone, Copy)]
pub(crate) enum Place {
    Of(Symbol),
    Behind(u16),
}

/// Whether an alternative acts.
fn acts_at(acts: &[bool], k: u16) -> bool
    ensures { result ≡ acts_at acts.now k }
{
    acts.get(k as usize).copied().unwrap_or(false)
}

/// Takes the next place.
pub(crate) fn pop(places: &mut Vec<Place>) -> Option<Place>
    ensures some { IfSome result (λ place. places_of places.old ≡ place ∷ places_of places.new) }
    ensures none { IfNone result (places_of places.old ≡ []) }
    ensures empty { IfNone result (places_of places.new ≡ []) }
{
    places.pop()
}

/// Puts the symbols of a body in front. There is room for them.
fn push_symbols(body: &[Symbol], places: &mut Vec<Place>)
    requires { vec_len places.old + length body.now ≤ vec_capacity places.old }
    ensures { places_of places.new ≡ map (λ s. Place.Of s) body.now ++ places_of places.old }
{
    let count = body.len();
    for i in 0..count {
        places.push_reserved(Place::Of(body[count - 1 - i]));
    }
}

/// Puts an alternative in front: its symbols, and behind them its end where it acts.
pub(crate) fn enter(
    language: &Language,
    acts: &[bool],
    k: u16,
    places: &mut Vec<Place>,
) -> Result<(), AllocError>
    requires { k < length language.now.alternatives.now }
    ensures { OnOk result ((a : Alternative) → Selects language.now k a
        → places_of places.new ≡ entered language.now acts.now k a (places_of places.old)) }
{
    let symbols = body(language, &language.alternatives[k as usize]);
    places.reserve(symbols.len() + 1)?;
    if acts_at(acts, k) {
        places.push_reserved(Place::Behind(k));
    }
    push_symbols(symbols, places);
    Ok(())
}
