//! The questions that are asked of a case's pattern.
ghost use Rattle.std.specs.Prelude.{◌≡◌, ◌∷◌, codes};
ghost use Rattle.serde_json.specs.View.{view};
ghost use Rattle.pv_case.specs.Checks.{Answers, each, of_any};
ghost use Rattle.pv_case.specs.Members.{pairs_in};
ghost use Rattle.pv_case.specs.Patterns.{kind_named, expressions_of};
ghost use Rattle.pv_case.specs.Fields.{wanted, expression_names, text_where, is_short_in, has_count, pattern_in, pattern};

use crate::case::PatternKind;
use crate::checks::{Breach, ask};
use crate::fault::Kind;
use crate::fields::{text, wanted};
use crate::members::{is_short, text_in};
use serde_json::Value;

/// The kind of this name.
#[tactic(auto, unfolding(crate::specs::Patterns::kind_named))]
pub(crate) fn kind_named(text: &str) -> Option<PatternKind>
    ensures { result ≡ kind_named text.now }
{
    match text {
        "invariant" => Some(PatternKind::Invariant),
        "forbidden" => Some(PatternKind::Forbidden),
        "implication" => Some(PatternKind::Implication),
        "within" => Some(PatternKind::Within),
        "between" => Some(PatternKind::Between),
        "reach" => Some(PatternKind::Reach),
        _ => None,
    }
}

/// How many expressions a kind has.
pub(crate) fn expressions_of(kind: Option<PatternKind>) -> u32
    ensures { result ≡ expressions_of kind }
{
    match kind {
        None => 0,
        Some(PatternKind::Invariant | PatternKind::Forbidden | PatternKind::Reach) => 1,
        Some(PatternKind::Implication | PatternKind::Within) => 2,
        Some(PatternKind::Between) => 3,
    }
}

fn text_where<'a>(v: &Value, key: &'a str) -> Result<(), Breach<'a>>
    ensures { Answers (text_where (view v.now) key.now) result }
{
    match v.get(key) {
        Some(e) => ask(e.is_string(), Kind::WrongKind, key),
        None => Ok(()),
    }
}

fn expressions_are(v: &Value) -> Result<(), Breach<'static>>
    ensures { Answers (each (text_where (view v.now)) expression_names) result }
{
    text_where(v, "a")?;
    text_where(v, "b")?;
    text_where(v, "c")
}

fn is_short_in<'a>(v: &Value, key: &'a str) -> Result<(), Breach<'a>>
    ensures { Answers (is_short_in (view v.now) key.now) result }
{
    ask(is_short(text_in(v, key)), Kind::OutOfLimit, key)
}

fn all_short(v: &Value) -> Result<(), Breach<'static>>
    ensures { Answers (each (is_short_in (view v.now)) (codes "kind" ∷ expression_names)) result }
{
    is_short_in(v, "kind")?;
    is_short_in(v, "a")?;
    is_short_in(v, "b")?;
    is_short_in(v, "c")
}

/// Whether the expressions that are there are the first ones, as many as that.
fn has_count(v: &Value, n: u32) -> bool
    ensures { result ≡ has_count (view v.now) n }
{
    v.get("a").is_some() == (n >= 1)
        && v.get("b").is_some() == (n >= 2)
        && v.get("c").is_some() == (n >= 3)
}

fn has_kind(v: &Value) -> Result<(), Breach<'static>>
    ensures { Answers (of_any (λ members. wanted (view v.now) (codes "kind")) (pairs_in (view v.now))) result }
{
    if v.is_object() {
        wanted(v, "kind")?;
    }
    Ok(())
}

fn pattern_in(v: &Value) -> Result<(), Breach<'static>>
    ensures { Answers (pattern_in (view v.now)) result }
{
    has_kind(v)?;
    ask(v.is_object(), Kind::WrongKind, "pattern")?;
    text(v, "kind")?;
    expressions_are(v)?;
    all_short(v)?;
    let kind = kind_named(text_in(v, "kind"));
    ask(kind.is_some(), Kind::NoSuchPattern, "kind")?;
    ask(
        has_count(v, expressions_of(kind)),
        Kind::CountOfExpressions,
        "pattern",
    )
}

pub(crate) fn pattern(d: &Value) -> Result<(), Breach<'static>>
    ensures { Answers (pattern (view d.now)) result }
{
    wanted(d, "pattern")?;
    match d.get("pattern") {
        Some(v) => pattern_in(v),
        None => Ok(()),
    }
}
