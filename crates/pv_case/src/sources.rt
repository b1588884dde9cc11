//! The questions that are asked of a case's sources.
ghost use Rattle.std.specs.Prelude.{◌≡◌, map, ◌∷◌, [], codes};
ghost use Rattle.serde_json.specs.View.{view};
ghost use Rattle.pv_case.specs.Checks.{Answers, each};
ghost use Rattle.pv_case.specs.Members.{is_among};
ghost use Rattle.pv_case.specs.Fields.{source_has, source_is, source_lies, are_few, source_list, sources};

use crate::case::MAX_SOURCES;
use crate::checks::{Breach, ask};
use crate::fault::Kind;
use crate::fields::{is_file, text, wanted};
use crate::members::{items_at, text_in};
use serde_json::Value;

fn source_has(s: &Value) -> Result<(), Breach<'static>>
    ensures { Answers (source_has (view s.now)) result }
{
    if s.is_object() {
        wanted(s, "file")?;
        wanted(s, "language")?;
    }
    Ok(())
}

fn sources_have(items: &[Value]) -> Result<(), Breach<'static>>
    ensures { Answers (each source_has (map view items.now)) result }
{
    for s in items {
        source_has(s)?;
    }
    Ok(())
}

fn source_is(s: &Value) -> Result<(), Breach<'static>>
    ensures { Answers (source_is (view s.now)) result }
{
    ask(s.is_object(), Kind::WrongKind, "sources")?;
    text(s, "file")?;
    text(s, "language")
}

fn sources_are(items: &[Value]) -> Result<(), Breach<'static>>
    ensures { Answers (each source_is (map view items.now)) result }
{
    for s in items {
        source_is(s)?;
    }
    Ok(())
}

fn is_language(text: &str) -> bool
    ensures { result ≡ is_among (codes "scl" ∷ codes "stl" ∷ []) text.now }
{
    text == "scl" || text == "stl"
}

fn source_lies(s: &Value) -> Result<(), Breach<'static>>
    ensures { Answers (source_lies (view s.now)) result }
{
    ask(is_file(text_in(s, "file")), Kind::OutOfLimit, "file")?;
    ask(
        is_language(text_in(s, "language")),
        Kind::OutOfLimit,
        "language",
    )
}

fn sources_lie(items: &[Value]) -> Result<(), Breach<'static>>
    ensures { Answers (each source_lies (map view items.now)) result }
{
    for s in items {
        source_lies(s)?;
    }
    Ok(())
}

/// Whether there are as many sources as a case may have.
fn are_few(items: &[Value]) -> bool
    ensures { result ≡ are_few (map view items.now) }
{
    items.len() >= 1 && items.len() <= MAX_SOURCES
}

fn source_list(items: &[Value]) -> Result<(), Breach<'static>>
    ensures { Answers (source_list (map view items.now)) result }
{
    sources_have(items)?;
    sources_are(items)?;
    ask(are_few(items), Kind::OutOfLimit, "sources")?;
    sources_lie(items)
}

pub(crate) fn sources(d: &Value) -> Result<(), Breach<'static>>
    ensures { Answers (sources (view d.now)) result }
{
    wanted(d, "sources")?;
    let items = items_at(d, "sources");
    ask(items.is_some(), Kind::WrongKind, "sources")?;
    match items {
        Some(items) => source_list(items),
        None => Ok(()),
    }
}
