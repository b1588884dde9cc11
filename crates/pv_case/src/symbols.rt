//! The questions that are asked of the members of a case's symbols.
ghost use Rattle.std.specs.Prelude.{◌≡◌, map};
ghost use Rattle.serde_json.specs.View.{view};
ghost use Rattle.pv_case.specs.Checks.{Answers, each};
ghost use Rattle.pv_case.specs.Viewed.{pair_of};
ghost use Rattle.pv_case.specs.Fields.{symbol_has, symbol_is, symbol_lies, symbol_list, symbols_in, symbols};

use crate::checks::{Breach, ask};
use crate::fault::Kind;
use crate::fields::{text, wanted};
use crate::members::{is_short, pairs_in, text_in};
use serde_json::{Map, Value};

fn symbol_has<'a>(name: &'a str, symbol: &Value) -> Result<(), Breach<'a>>
    ensures { Answers (symbol_has (name.now, view symbol.now)) result }
{
    if symbol.is_object() {
        wanted(symbol, "at")?;
        wanted(symbol, "type")?;
    }
    Ok(())
}

fn symbols_have(pairs: &Map<String, Value>) -> Result<(), Breach<'_>>
    ensures { Answers (each symbol_has (map pair_of pairs.now.entries)) result }
{
    for (path, value) in pairs {
        symbol_has(path.as_str(), value)?;
    }
    Ok(())
}

fn symbol_is<'a>(name: &'a str, symbol: &Value) -> Result<(), Breach<'a>>
    ensures { Answers (symbol_is (name.now, view symbol.now)) result }
{
    ask(symbol.is_object(), Kind::WrongKind, name)?;
    text(symbol, "at")?;
    text(symbol, "type")
}

fn symbols_are(pairs: &Map<String, Value>) -> Result<(), Breach<'_>>
    ensures { Answers (each symbol_is (map pair_of pairs.now.entries)) result }
{
    for (path, value) in pairs {
        symbol_is(path.as_str(), value)?;
    }
    Ok(())
}

fn symbol_lies<'a>(name: &'a str, symbol: &Value) -> Result<(), Breach<'a>>
    ensures { Answers (symbol_lies (name.now, view symbol.now)) result }
{
    ask(is_short(text_in(symbol, "at")), Kind::OutOfLimit, "at")?;
    ask(is_short(text_in(symbol, "type")), Kind::OutOfLimit, "type")
}

fn symbols_lie(pairs: &Map<String, Value>) -> Result<(), Breach<'_>>
    ensures { Answers (each symbol_lies (map pair_of pairs.now.entries)) result }
{
    for (path, value) in pairs {
        symbol_lies(path.as_str(), value)?;
    }
    Ok(())
}

fn symbol_list(pairs: &Map<String, Value>) -> Result<(), Breach<'_>>
    ensures { Answers (symbol_list (map pair_of pairs.now.entries)) result }
{
    symbols_have(pairs)?;
    symbols_are(pairs)?;
    symbols_lie(pairs)
}

fn symbols_in(v: &Value) -> Result<(), Breach<'_>>
    ensures { Answers (symbols_in (view v.now)) result }
{
    ask(v.is_object(), Kind::WrongKind, "symbols")?;
    match pairs_in(v) {
        Some(pairs) => symbol_list(pairs),
        None => Ok(()),
    }
}

pub(crate) fn symbols(d: &Value) -> Result<(), Breach<'_>>
    ensures { Answers (symbols (view d.now)) result }
{
    match d.get("symbols") {
        Some(v) => symbols_in(v),
        None => Ok(()),
    }
}
