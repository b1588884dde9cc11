//! The first of several breaches.
ghost use Rattle.std.specs.Prelude.{◌≡◌, map};
ghost use Rattle.pv_rules_decl.specs.Least.{is_up_to, lesser, least, breach_at, breach_found, breach_where};

use crate::fault::{Breach, Rule};
use pv_place::Place;

/// The nearest place at which a rule is broken, if it is.
#[derive(Clone, Copy)]
pub struct Found {
    pub rule: Rule,
    pub place: Option<Place>,
}

/// A rule with the nearest place at which it is broken.
pub fn make_found(rule: Rule, place: Option<Place>) -> Found
    ensures { result ≡ record { rule = rule; place = place } }
{
    Found { rule, place }
}

/// Whether `a` comes before `b`, or is the same.
fn comes_first(a: &Breach, b: &Breach) -> bool
    ensures { result ≡ is_up_to a.now b.now }
{
    let same_file = a.place.file == b.place.file;
    let same_offset = a.place.offset == b.place.offset;
    let same_rule_or_less = a.rule.number() <= b.rule.number();
    a.place.file < b.place.file
        || (same_file && (a.place.offset < b.place.offset || (same_offset && same_rule_or_less)))
}

/// The first of two breaches.
pub(crate) fn lesser(a: Option<Breach>, b: Option<Breach>) -> Option<Breach>
    ensures { result ≡ lesser a b }
{
    match (a, b) {
        (None, other) => other,
        (one, None) => one,
        (Some(one), Some(other)) => {
            if comes_first(&one, &other) {
                Some(one)
            } else {
                Some(other)
            }
        }
    }
}

/// The rule's breach at the place, if there is one.
pub(crate) fn breach_at(rule: Rule, place: Option<Place>) -> Option<Breach>
    ensures { result ≡ breach_at rule place }
{
    match place {
        Some(place) => Some(Breach { rule, place }),
        None => None,
    }
}

/// The first of these.
pub(crate) fn least_of(found: &[Found]) -> Option<Breach>
    ensures { result ≡ least (map breach_found found.now) }
{
    match found.split_first() {
        Some((one, more)) => lesser(breach_at(one.rule, one.place), least_of(more)),
        None => None,
    }
}

/// A breach at this place, where the rule is broken.
pub(crate) fn breach(broken: bool, rule: Rule, place: Place) -> Option<Breach>
    ensures { result ≡ breach_where broken rule place }
{
    if broken {
        Some(Breach { rule, place })
    } else {
        None
    }
}
