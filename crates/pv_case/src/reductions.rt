//! The questions that are asked of the reductions that a case allows.
ghost use Rattle.std.specs.Prelude.{◌≡◌, ◌∷◌, [], ℕ, List, map, codes, length, bytes_eq};
ghost use Rattle.std.specs.List.{count_by};
ghost use Rattle.pv_case.specs.declared.fault.Kind.TheVariants.{OutOfLimit};
ghost use Rattle.serde_json.specs.View.{view};
ghost use Rattle.pv_case.specs.Checks.{Answers, each, ask};
ghost use Rattle.pv_case.specs.Fields.{reduction_names, text_of, is_reduction, is_once, reduction_is, reduction_lies, reduction_list, reduce_in, reduce};

use crate::checks::{Breach, ask};
use crate::fault::Kind;
use crate::members::items_in;
use serde_json::Value;

fn reduction_is(i: &Value) -> Result<(), Breach<'static>>
    ensures { Answers (reduction_is (view i.now)) result }
{
    ask(i.is_string(), Kind::WrongKind, "reduce")
}

fn reductions_are(items: &[Value]) -> Result<(), Breach<'static>>
    ensures { Answers (each reduction_is (map view items.now)) result }
{
    for i in items {
        reduction_is(i)?;
    }
    Ok(())
}

/// The value's text, or the empty one.
fn text_of(d: &Value) -> &str
    ensures { result.now ≡ text_of (view d.now) }
{
    d.as_str().unwrap_or("")
}

#[tactic(auto, unfolding(crate::specs::Fields::is_reduction))]
fn is_reduction(i: &Value) -> bool
    ensures { result ≡ is_reduction (view i.now) }
{
    let text = text_of(i);
    text == "constants" || text == "abstract" || text == "cone"
}

fn reduction_lies(i: &Value) -> Result<(), Breach<'static>>
    ensures { Answers (reduction_lies (view i.now)) result }
{
    ask(is_reduction(i), Kind::OutOfLimit, "reduce")
}

fn reductions_lie(items: &[Value]) -> Result<(), Breach<'static>>
    ensures { Answers (each reduction_lies (map view items.now)) result }
{
    for i in items {
        reduction_lies(i)?;
    }
    Ok(())
}

pub(crate) fn is_text(i: &Value, name: &str) -> bool
    ensures { result ≡ bytes_eq (text_of (view i.now)) name.now }
{
    text_of(i) == name
}

/// Whether at most one of the items is this text.
fn is_once(items: &[Value], name: &str) -> bool
    ensures { result ≡ is_once (map view items.now) name.now }
{
    items.iter().filter(|i| is_text(i, name)).count() <= 1
}

/// Whether no reduction stands twice.
fn each_once(items: &[Value]) -> Result<(), Breach<'static>>
    ensures { Answers (each (λ name. ask (is_once (map view items.now) name) OutOfLimit (codes "reduce")) reduction_names) result }
{
    ask(is_once(items, "constants"), Kind::OutOfLimit, "reduce")?;
    ask(is_once(items, "abstract"), Kind::OutOfLimit, "reduce")?;
    ask(is_once(items, "cone"), Kind::OutOfLimit, "reduce")
}

fn reduction_list(items: &[Value]) -> Result<(), Breach<'static>>
    ensures { Answers (reduction_list (map view items.now)) result }
{
    reductions_are(items)?;
    reductions_lie(items)?;
    each_once(items)
}

fn reduce_in(v: &Value) -> Result<(), Breach<'static>>
    ensures { Answers (reduce_in (view v.now)) result }
{
    ask(v.is_array(), Kind::WrongKind, "reduce")?;
    match items_in(v) {
        Some(items) => reduction_list(items),
        None => Ok(()),
    }
}

pub(crate) fn reduce(d: &Value) -> Result<(), Breach<'static>>
    ensures { Answers (reduce (view d.now)) result }
{
    match d.get("reduce") {
        Some(v) => reduce_in(v),
        None => Ok(()),
    }
}
