//! The least place of several.
ghost use Rattle.std.specs.Prelude.{◌≡◌, true, false};
ghost use Rattle.pv_rules_expr.specs.Nearest.{is_before, Nears};

use pv_place::Place;

/// Whether `a` stands before `b`, or is the same.
pub(crate) fn is_before(a: &Place, b: &Place) -> bool
    ensures { result ≡ is_before a.now b.now }
{
    let same_file = a.file == b.file;
    a.file < b.file || (same_file && a.offset <= b.offset)
}

/// Whether a place stands before the nearest one so far, or is the first.
pub fn is_nearer(nearest: Option<Place>, place: &Place) -> bool
    ensures no { result ≡ false → Nears (λ at. place.now ≡ at) nearest nearest }
    ensures yes { result ≡ true → Nears (λ at. place.now ≡ at) nearest (Some place.now) }
{
    match nearest {
        None => true,
        Some(so_far) => !is_before(&so_far, place),
    }
}

/// The nearest place, with this one.
pub fn nearer(nearest: Option<Place>, place: &Place) -> Option<Place>
    ensures { Nears (λ at. place.now ≡ at) nearest result }
{
    if is_nearer(nearest, place) {
        Some(*place)
    } else {
        nearest
    }
}
