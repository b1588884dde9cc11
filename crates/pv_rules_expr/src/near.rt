//! Of each thing that is looked for in expressions the nearest place so far.
ghost use Rattle.std.specs.Prelude.{◌≡◌, None, Some};
ghost use Rattle.pv_rules_expr.specs.Nearest.{nearer_of};
ghost use Rattle.pv_rules_expr.specs.Near.{near_at};
ghost use Rattle.pv_rules_expr.specs.Places.{place_where};
ghost use Rattle.pv_rules_expr.specs.declared.search.Look.{Look};

use crate::search::nearer_of;
use pv_place::Place;

/// Of each thing that is looked for in expressions the nearest place so far.
#[derive(Clone, Copy)]
pub struct Near {
    /// Of [`Look::Misapplied`].
    pub misapplied: Option<Place>,
    /// Of [`Look::Outside`].
    pub outside: Option<Place>,
    /// Of [`Look::Missing`].
    pub missing: Option<Place>,
    /// Of [`Look::Void`].
    pub void: Option<Place>,
    /// Of [`Look::Address`].
    pub address: Option<Place>,
    /// Of [`Look::Misused`].
    pub misused: Option<Place>,
    /// Of [`Look::Beyond`].
    pub beyond: Option<Place>,
    /// Of [`Look::Moving`].
    pub moving: Option<Place>,
    /// Of [`Look::Divides`].
    pub divides: Option<Place>,
}

/// No place of anything yet.
pub fn nothing_near() -> Near
    ensures { (what : Look) → near_at what result ≡ None }
{
    Near {
        misapplied: None,
        outside: None,
        missing: None,
        void: None,
        address: None,
        misused: None,
        beyond: None,
        moving: None,
        divides: None,
    }
}

/// The nearest place so far, with this one.
pub(crate) fn add(nearest: &mut Option<Place>, found: Option<Place>)
    ensures { nearest.new ≡ nearer_of nearest.old found }
{
    if let Some(place) = found {
        *nearest = nearer_of(*nearest, Some(place));
    }
}

/// The nearest place so far, with this one where the test passes.
pub(crate) fn add_where(nearest: &mut Option<Place>, test: bool, place: Place)
    ensures { nearest.new ≡ nearer_of nearest.old (place_where test place) }
{
    if test {
        *nearest = nearer_of(*nearest, Some(place));
    }
}
