//! Members that no case has.
ghost use Rattle.std.specs.Prelude.{◌≡◌, map, option_map, codes};
ghost use Rattle.serde_json.specs.View.{view};
ghost use Rattle.pv_case.specs.Checks.{Answers};
ghost use Rattle.pv_case.specs.Viewed.{pair_of};
ghost use Rattle.std.specs.List.{fold};
ghost use Rattle.pv_case.specs.Members.{is_among};
ghost use Rattle.pv_case.specs.Fields.{field_names, source_names, symbol_names, known};
ghost use Rattle.pv_case.specs.Least.{names_of, lesser, behind, behind_names, behind_objects, least_stray};

use crate::checks::Breach;
use crate::fault::Kind;
use crate::members::{items_at, pairs_at, pairs_in};
use serde_json::{Map, Value};

/// What an object of a case's JSON stands for.
#[derive(Clone, Copy)]
enum Object {
    Case,
    Source,
    Symbol,
    Pattern,
}

/// Whether such an object may have a member of this name.
fn has_name(object: Object, name: &str) -> bool
    ensures { result ≡ is_among (names_of object) name.now }
{
    match object {
        Object::Case => is_field(name),
        Object::Source => name == "file" || name == "language",
        Object::Symbol => name == "at" || name == "type",
        Object::Pattern => name == "kind" || name == "a" || name == "b" || name == "c",
    }
}

fn is_field(name: &str) -> bool
    ensures { result ≡ is_among field_names name.now }
{
    name == "version"
        || name == "name"
        || name == "sources"
        || name == "entry"
        || name == "params"
        || name == "bind"
        || name == "symbols"
        || name == "pattern"
        || name == "loopBound"
        || name == "depth"
        || name == "lemmas"
        || name == "regionWords"
        || name == "reduce"
        || name == "certificate"
}

/// The one that comes first in the order of bytes.
fn lesser<'a>(so_far: Option<&'a str>, name: &'a str) -> Option<&'a str>
    ensures { option_map (λ t. t.now) result ≡ lesser (option_map (λ t. t.now) so_far.entry) name.now }
{
    match so_far {
        None => Some(name),
        Some(other) => {
            if other <= name {
                Some(other)
            } else {
                Some(name)
            }
        }
    }
}

/// The least so far, after one name more of such an object.
fn behind<'a>(object: Object, so_far: Option<&'a str>, name: &'a str) -> Option<&'a str>
    ensures { option_map (λ t. t.now) result ≡ behind (names_of object) (option_map (λ t. t.now) so_far.entry) name.now }
{
    if has_name(object, name) {
        so_far
    } else {
        lesser(so_far, name)
    }
}

/// The least so far, after all names of such an object.
fn least_name<'a>(
    object: Object,
    pairs: &'a Map<String, Value>,
    so_far: Option<&'a str>,
) -> Option<&'a str>
    ensures { option_map (λ t. t.now) result
        ≡ fold (behind (names_of object)) (option_map (λ t. t.now) so_far.entry) (map (λ p. p.0) (map pair_of pairs.now.entries)) }
{
    let mut least = so_far;
    for (name, _value) in pairs {
        least = behind(object, least, name.as_str());
    }
    least
}

/// The least so far, after all names of the value, where it is such an object.
fn least_in<'a>(object: Object, d: &'a Value, so_far: Option<&'a str>) -> Option<&'a str>
    ensures { option_map (λ t. t.now) result ≡ behind_names (names_of object) (option_map (λ t. t.now) so_far.entry) (view d.now) }
{
    match pairs_in(d) {
        Some(pairs) => least_name(object, pairs, so_far),
        None => so_far,
    }
}

/// The least so far, after the sources' names.
fn least_in_sources<'a>(items: &'a [Value], so_far: Option<&'a str>) -> Option<&'a str>
    ensures { option_map (λ t. t.now) result ≡ behind_objects source_names (option_map (λ t. t.now) so_far.entry) (map view items.now) }
{
    let mut least = so_far;
    for s in items {
        least = least_in(Object::Source, s, least);
    }
    least
}

/// The least so far, after the names in the symbols.
fn least_in_symbols<'a>(pairs: &'a Map<String, Value>, so_far: Option<&'a str>) -> Option<&'a str>
    ensures { option_map (λ t. t.now) result
        ≡ behind_objects symbol_names (option_map (λ t. t.now) so_far.entry) (map (λ p. p.1) (map pair_of pairs.now.entries)) }
{
    let mut least = so_far;
    for (_name, symbol) in pairs {
        least = least_in(Object::Symbol, symbol, least);
    }
    least
}

/// The least name that no case has.
fn least_stray(d: &Value) -> Option<&str>
    ensures { option_map (λ t. t.now) result ≡ least_stray (view d.now) }
{
    let mut least = least_in(Object::Case, d, None);
    if let Some(items) = items_at(d, "sources") {
        least = least_in_sources(items, least);
    }
    if let Some(pairs) = pairs_at(d, "symbols") {
        least = least_in_symbols(pairs, least);
    }
    match d.get("pattern") {
        Some(v) => least_in(Object::Pattern, v, least),
        None => least,
    }
}

/// Whether a case has each of the members.
pub(crate) fn known(d: &Value) -> Result<(), Breach<'_>>
    ensures { Answers (known (view d.now)) result }
{
    match least_stray(d) {
        None => Ok(()),
        Some(field) => Err(Breach {
            kind: Kind::UnknownField,
            field,
        }),
    }
}
