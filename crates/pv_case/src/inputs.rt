//! The questions that are asked of a case's parameters and of its bound inputs.
ghost use Rattle.std.specs.Prelude.{◌≡◌, map};
ghost use Rattle.serde_json.specs.View.{view};
ghost use Rattle.pv_case.specs.Checks.{Answers, each};
ghost use Rattle.pv_case.specs.Viewed.{pair_of};
ghost use Rattle.pv_case.specs.Fields.{param_is, param_lies, param_list, params_in, params, is_bound, bound_is, bind_in, bind};

use crate::checks::{Breach, ask};
use crate::fault::Kind;
use crate::members::{integer_of, is_short, items_in, pairs_in};
use serde_json::{Map, Value};

fn param_is(i: &Value) -> Result<(), Breach<'static>>
    ensures { Answers (param_is (view i.now)) result }
{
    ask(i.is_string(), Kind::WrongKind, "params")
}

fn params_are(items: &[Value]) -> Result<(), Breach<'static>>
    ensures { Answers (each param_is (map view items.now)) result }
{
    for i in items {
        param_is(i)?;
    }
    Ok(())
}

fn param_lies(i: &Value) -> Result<(), Breach<'static>>
    ensures { Answers (param_lies (view i.now)) result }
{
    ask(
        is_short(i.as_str().unwrap_or("")),
        Kind::OutOfLimit,
        "params",
    )
}

fn params_lie(items: &[Value]) -> Result<(), Breach<'static>>
    ensures { Answers (each param_lies (map view items.now)) result }
{
    for i in items {
        param_lies(i)?;
    }
    Ok(())
}

fn params_in(v: &Value) -> Result<(), Breach<'static>>
    ensures { Answers (params_in (view v.now)) result }
{
    ask(v.is_array(), Kind::WrongKind, "params")?;
    if let Some(items) = items_in(v) {
        params_are(items)?;
        params_lie(items)?;
    }
    Ok(())
}

pub(crate) fn params(d: &Value) -> Result<(), Breach<'static>>
    ensures { Answers (params (view d.now)) result }
{
    match d.get("params") {
        Some(v) => params_in(v),
        None => Ok(()),
    }
}

fn is_bound(d: &Value) -> bool
    ensures { result ≡ is_bound (view d.now) }
{
    integer_of(d).is_some() || d.is_boolean()
}

fn bound_is<'a>(path: &'a str, value: &Value) -> Result<(), Breach<'a>>
    ensures { Answers (bound_is (path.now, view value.now)) result }
{
    ask(is_bound(value), Kind::WrongKind, path)
}

fn all_bound(pairs: &Map<String, Value>) -> Result<(), Breach<'_>>
    ensures { Answers (each bound_is (map pair_of pairs.now.entries)) result }
{
    for (path, value) in pairs {
        bound_is(path.as_str(), value)?;
    }
    Ok(())
}

fn bind_in(v: &Value) -> Result<(), Breach<'_>>
    ensures { Answers (bind_in (view v.now)) result }
{
    ask(v.is_object(), Kind::WrongKind, "bind")?;
    match pairs_in(v) {
        Some(pairs) => all_bound(pairs),
        None => Ok(()),
    }
}

pub(crate) fn bind(d: &Value) -> Result<(), Breach<'_>>
    ensures { Answers (bind (view d.now)) result }
{
    match d.get("bind") {
        Some(v) => bind_in(v),
        None => Ok(()),
    }
}
