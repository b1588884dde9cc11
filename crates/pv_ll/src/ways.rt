//! What names on the stack lead to before a next token, found once for each name and token of a text.
//!
//! Most of what a name derives enters one alternative after another before a token comes: an expression has a level for each
//! operator that could stand in it. Such a row of alternatives is the same wherever the name and the token are, so it is kept.
ghost use Rattle.std.specs.Prelude.{◌≡◌, ◌∷◌, [], ℕ, Bool, List, reverse, IfOk, IfSome, IfNone, OnOk};
ghost use Rattle.pv_ll.specs.declared.table.Symbol.TheVariants.{Name};
ghost use Rattle.pv_ll.specs.declared.turn.Place.TheVariants.{Of};
ghost use Rattle.pv_ll.specs.Facts.{IsLL1};
ghost use Rattle.pv_ll.specs.Reading.{places_of, Chosen, NoneFits};
ghost use Rattle.pv_ll.specs.Ways.{Leads, GoesOn, IsLed, IsWay, AreWays};

use crate::table::{Language, Symbol, contains, rule_of};
use crate::turn::{Place, enter, pop};
use std::alloc::{AllocError, Global};

/// A text with fewer tokens is short.
const SHORT: usize = 256;

/// What a name leads to before such a next token.
#[derive(Drop)]
pub(crate) struct Way {
    name: u8,
    token: u8,
    /// What stands in place of the name, its top last: a token, an end or nothing.
    places: Vec<Place>,
}

/// The ways that were found so far.
#[derive(Drop)]
pub(crate) struct Ways {
    alloc: Global,
    ways: Vec<Way>,
    /// By name and token the number of a way; whatever stands there is tested.
    numbers: Vec<usize>,
}

impl Ways {
    /// Room for the ways of a text with so many tokens; none for a short text, for which it isn't worth while.
    pub(crate) fn of(alloc: Global, language: &Language, tokens: usize) -> Result<Ways, AllocError>
        ensures { IfOk result (λ ways. ways.ways.items ≡ []) }
    {
        let wanted = if tokens < SHORT {
            0
        } else {
            language.rules.len().min(256) * (language.kinds as usize + 1)
        };
        let numbers = vec![in alloc; 0; wanted]?;
        Ok(Ways {
            alloc,
            ways: Vec::new(alloc),
            numbers,
        })
    }
}

/// The alternative of a name that a next token takes.
fn choose(language: &Language, name: u8, token: u8) -> Option<u16>
    requires { IsLL1 language.now }
    ensures found { IfSome result (Chosen language.now name token) }
    ensures none { IfNone result (NoneFits language.now name token) }
{
    let rule = rule_of(language, name);
    for k in rule.from..rule.to {
        if contains(language.alternatives[k as usize].when, token) {
            return Some(k);
        }
    }
    None
}

/// The alternative that a next token takes of what stands in a place, if that is a name.
fn choose_at(language: &Language, place: Place, token: u8) -> Option<u16>
    requires { IsLL1 language.now }
    ensures { IfSome result (λ k. (name : ℕ) × (place ≡ Of (Name name)) × Chosen language.now name token k) }
{
    match place {
        Place::Of(Symbol::Name(name)) => choose(language, name, token),
        _ => None,
    }
}

/// Enters an alternative of the name on top of the stack. Where no name is there, or the token takes none, the stack stays.
fn go_on(
    language: &Language,
    acts: &[bool],
    token: u8,
    places: &mut Vec<Place>,
) -> Result<bool, AllocError>
    requires { IsLL1 language.now }
    ensures { IfOk result (GoesOn language.now acts.now token (places_of places.old) (places_of places.new)) }
{
    let Some(place) = pop(places) else {
        return Ok(false);
    };
    match choose_at(language, place, token) {
        Some(k) => {
            enter(language, acts, k, places)?;
            Ok(true)
        }
        None => {
            places.push(place)?;
            Ok(false)
        }
    }
}

/// What a name leads to by its alternative k, which the token takes.
fn way_by(
    alloc: Global,
    language: &Language,
    acts: &[bool],
    name: u8,
    token: u8,
    k: u16,
) -> Result<Way, AllocError>
    requires ll1 { IsLL1 language.now }
    requires chosen { Chosen language.now name token k }
    ensures { IfOk result (IsWay language.now acts.now) }
{
    let mut places = Vec::new(alloc);
    enter(language, acts, k, &mut places)?;
    while go_on(language, acts, token, &mut places)? {}
    Ok(Way {
        name,
        token,
        places,
    })
}

/// Where the number of a way stands.
fn number_of(language: &Language, name: u8, token: u8) -> usize {
    name as usize * (language.kinds as usize + 1) + token as usize
}

/// The way of a name before such a token, if it was found before.
fn find<'w>(language: &Language, ways: &'w Ways, name: u8, token: u8) -> Option<&'w [Place]>
    ensures { (acts : List Bool) → AreWays language.now acts ways.now
        → IfSome result (λ places. Leads language.now acts token (Of (Name name) ∷ []) (reverse places.now)) }
{
    let Some(number) = ways
        .numbers
        .as_slice()
        .get(number_of(language, name, token))
    else {
        return None;
    };
    match ways.ways.as_slice().get(*number) {
        Some(way) if way.name == name && way.token == token => Some(way.places.as_slice()),
        _ => None,
    }
}

/// Finds the way of a name by its alternative k, which the token takes, for the next time. Of a short text none is kept.
fn keep(
    language: &Language,
    acts: &[bool],
    ways: &mut Ways,
    name: u8,
    token: u8,
    k: u16,
) -> Result<(), AllocError>
    requires ll1 { IsLL1 language.now }
    requires chosen { Chosen language.now name token k }
    requires ways { AreWays language.now acts.now ways.old }
    ensures { OnOk result (AreWays language.now acts.now ways.new) }
{
    let place = number_of(language, name, token);
    if place >= ways.numbers.len() {
        return Ok(());
    }
    let way = way_by(ways.alloc, language, acts, name, token, k)?;
    ways.numbers[place] = ways.ways.len();
    ways.ways.push(way)?;
    Ok(())
}

/// Puts in place of a name, which was taken off the stack, what it leads to before such a token; false where the token takes none
/// of its alternatives.
pub(crate) fn lead(
    language: &Language,
    acts: &[bool],
    ways: &mut Ways,
    name: u8,
    token: u8,
    places: &mut Vec<Place>,
) -> Result<bool, AllocError>
    requires ll1 { IsLL1 language.now }
    requires ways { AreWays language.now acts.now ways.old }
    ensures led { IfOk result (IsLed language.now acts.now name token (places_of places.old) (places_of places.new)) }
    ensures ways { OnOk result (AreWays language.now acts.now ways.new) }
{
    if let Some(way) = find(language, ways, name, token) {
        places.extend_from_slice(way)?;
        return Ok(true);
    }
    let Some(k) = choose(language, name, token) else {
        return Ok(false);
    };
    enter(language, acts, k, places)?;
    keep(language, acts, ways, name, token, k)?;
    Ok(true)
}
