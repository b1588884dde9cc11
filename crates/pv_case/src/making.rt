//! The parts of a case, from a JSON value that keeps all rules of cases.
ghost use Rattle.std.specs.Prelude.{◌≡◌, bytes_eq, ◌++◌, [], ◌∷◌, ◌^◌, ◌-◌, pos, map, filter_map, codes, string_bytes, option_map, unwrap_or, IsTrue, IfOk, OnOk};
ghost use Rattle.std.specs.List.{list_any};
ghost use Rattle.serde_json.specs.Find.{as_bool};
ghost use Rattle.serde_json.specs.View.{view};
ghost use Rattle.pv_case.specs.Viewed.{pair_of};
ghost use Rattle.pv_case.specs.Members.{text_at, items_at, pairs_at, integer_at};
ghost use Rattle.pv_case.specs.Fields.{lies, limits, pattern, text_of};
ghost use Rattle.pv_case.specs.Cases.{source_data, source_of, language_of, bound_data, bound_of, truth_of, value_of, names_reduction, reductions_in, number_in, expressions_in, IsPatternOf, HasLimits};

use crate::case::{Bound, Limits, PatternText, Reductions, Source};
use crate::members::{integer_at, integer_of, items_at, pairs_at, text_at, text_in};
use crate::pattern::kind_named;
use crate::reductions::is_text;
use pv_lex::Language;
use serde_json::{Map, Value};
use std::alloc::{AllocError, Global};

// ---- sources

/// The language of this name; it is SCL where there is none.
fn language_of(text: &str) -> Language
    ensures { result ≡ language_of text.now }
{
    if text == "stl" {
        Language::Stl
    } else {
        Language::Scl
    }
}

fn source_of(alloc: Global, s: &Value) -> Result<Source, AllocError>
    ensures { IfOk result (λ source. source_data source ≡ source_of (view s.now)) }
{
    let file = String::from_str(alloc, text_in(s, "file"))?;
    let language = language_of(text_in(s, "language"));
    Ok(Source { file, language })
}

fn sources_among(alloc: Global, items: &[Value]) -> Result<Vec<Source>, AllocError>
    ensures { IfOk result (λ sources. map source_data sources.items ≡ map source_of (map view items.now)) }
{
    let mut sources = Vec::new(alloc);
    for s in items {
        sources.push(source_of(alloc, s)?)?;
    }
    Ok(sources)
}

pub(crate) fn sources_in(alloc: Global, d: &Value) -> Result<Vec<Source>, AllocError>
    ensures { IfOk result (λ sources. map source_data sources.items
        ≡ map source_of (unwrap_or (items_at (view d.now) (codes "sources")) [])) }
{
    match items_at(d, "sources") {
        Some(items) => sources_among(alloc, items),
        None => Ok(Vec::new(alloc)),
    }
}

// ---- params and bind

fn param_of(alloc: Global, i: &Value) -> Result<String, AllocError>
    ensures { IfOk result (λ param. string_bytes param ≡ text_of (view i.now)) }
{
    String::from_str(alloc, i.as_str().unwrap_or(""))
}

fn params_among(alloc: Global, items: &[Value]) -> Result<Vec<String>, AllocError>
    ensures { IfOk result (λ params. map string_bytes params.items ≡ map text_of (map view items.now)) }
{
    let mut params = Vec::new(alloc);
    for i in items {
        params.push(param_of(alloc, i)?)?;
    }
    Ok(params)
}

pub(crate) fn params_in(alloc: Global, d: &Value) -> Result<Vec<String>, AllocError>
    ensures { IfOk result (λ params. map string_bytes params.items
        ≡ map text_of (unwrap_or (items_at (view d.now) (codes "params")) [])) }
{
    match items_at(d, "params") {
        Some(items) => params_among(alloc, items),
        None => Ok(Vec::new(alloc)),
    }
}

/// 1 for TRUE, and 0 for FALSE and for none.
fn truth_of(truth: Option<bool>) -> i128
    ensures { result ≡ truth_of truth }
{
    match truth {
        Some(true) => 1,
        _ => 0,
    }
}

fn value_of(d: &Value) -> i128
    ensures { result ≡ value_of (view d.now) }
{
    match integer_of(d) {
        Some(n) => n,
        None => truth_of(d.as_bool()),
    }
}

fn bound_of(alloc: Global, path: &str, value: &Value) -> Result<Bound, AllocError>
    ensures { IfOk result (λ bound. bound_data bound ≡ bound_of (path.now, view value.now)) }
{
    let path = String::from_str(alloc, path)?;
    let value = value_of(value);
    Ok(Bound { path, value })
}

fn bounds_among(alloc: Global, pairs: &Map<String, Value>) -> Result<Vec<Bound>, AllocError>
    ensures { IfOk result (λ bounds. map bound_data bounds.items ≡ map bound_of (map pair_of pairs.now.entries)) }
{
    let mut bounds = Vec::new(alloc);
    for (path, value) in pairs {
        bounds.push(bound_of(alloc, path.as_str(), value)?)?;
    }
    Ok(bounds)
}

pub(crate) fn bounds_in(alloc: Global, d: &Value) -> Result<Vec<Bound>, AllocError>
    ensures { IfOk result (λ bounds. map bound_data bounds.items
        ≡ map bound_of (unwrap_or (pairs_at (view d.now) (codes "bind")) [])) }
{
    match pairs_at(d, "bind") {
        Some(pairs) => bounds_among(alloc, pairs),
        None => Ok(Vec::new(alloc)),
    }
}

// ---- the pattern

/// Puts the member's text behind the others, where there is one.
fn add_expression(
    alloc: Global,
    v: &Value,
    key: &str,
    expressions: &mut Vec<String>,
) -> Result<(), AllocError>
    ensures { OnOk result (map string_bytes expressions.new.items
        ≡ map string_bytes expressions.old.items ++ filter_map (text_at (view v.now)) (key.now ∷ [])) }
{
    if let Some(text) = text_at(v, key) {
        expressions.push(String::from_str(alloc, text)?)?;
    }
    Ok(())
}

fn expressions_in(alloc: Global, v: &Value) -> Result<Vec<String>, AllocError>
    ensures { IfOk result (λ texts. map string_bytes texts.items ≡ expressions_in (view v.now)) }
{
    let mut expressions = Vec::new(alloc);
    add_expression(alloc, v, "a", &mut expressions)?;
    add_expression(alloc, v, "b", &mut expressions)?;
    add_expression(alloc, v, "c", &mut expressions)?;
    Ok(expressions)
}

/// The pattern of a value that has one.
pub(crate) fn pattern_in(alloc: Global, d: &Value) -> Result<PatternText, AllocError>
    requires { (pattern (view d.now)).keeps }
    ensures { IfOk result (λ p. IsPatternOf (view d.now) p.kind (map string_bytes p.expressions.items)) }
{
    let Some(v) = d.get("pattern") else {
        unreachable!();
    };
    let Some(kind) = kind_named(text_in(v, "kind")) else {
        unreachable!();
    };
    let expressions = expressions_in(alloc, v)?;
    Ok(PatternText { kind, expressions })
}

// ---- the limits

/// The member's number, where 32 bits hold it.
fn small_number_in(d: &Value, key: &str) -> u32
    requires { IsTrue (lies (pos 0) (pos (2 ^ 32 - 1)) (integer_at (view d.now) key.now)) }
    ensures { pos result ≡ number_in (view d.now) key.now }
{
    match integer_at(d, key) {
        Some(n) => n as u32,
        None => 0,
    }
}

/// The member's number, where 64 bits hold it.
fn number_in(d: &Value, key: &str) -> u64
    requires { IsTrue (lies (pos 0) (pos (2 ^ 64 - 1)) (integer_at (view d.now) key.now)) }
    ensures { pos result ≡ number_in (view d.now) key.now }
{
    match integer_at(d, key) {
        Some(n) => n as u64,
        None => 0,
    }
}

/// The limits of a value that has them.
pub(crate) fn limits_in(d: &Value) -> Limits
    requires { (limits (view d.now)).keeps }
    ensures { HasLimits (view d.now) result }
{
    Limits {
        loop_bound: small_number_in(d, "loopBound"),
        depth: small_number_in(d, "depth"),
        lemmas: small_number_in(d, "lemmas"),
        region_words: number_in(d, "regionWords"),
    }
}

// ---- reductions, and the certificate

fn is_named(items: &[Value], name: &str) -> bool
    ensures { result ≡ list_any (λ i. bytes_eq (text_of (view i)) name.now) items.now }
{
    items.iter().any(|i| is_text(i, name))
}

fn names_reduction(items: Option<&[Value]>, name: &str) -> bool
    ensures { result ≡ names_reduction (option_map (λ items. map view items.now) items.entry) name.now }
{
    match items {
        None => true,
        Some(items) => is_named(items, name),
    }
}

pub(crate) fn reductions_in(d: &Value) -> Reductions
    ensures { result ≡ reductions_in (view d.now) }
{
    let items = items_at(d, "reduce");
    Reductions {
        constants: names_reduction(items, "constants"),
        abstraction: names_reduction(items, "abstract"),
        cone: names_reduction(items, "cone"),
    }
}

pub(crate) fn certificate_in(alloc: Global, d: &Value) -> Result<Option<String>, AllocError>
    ensures { IfOk result (λ file. option_map string_bytes file ≡ text_at (view d.now) (codes "certificate")) }
{
    match text_at(d, "certificate") {
        Some(file) => Ok(Some(String::from_str(alloc, file)?)),
        None => Ok(None),
    }
}
