//! The questions that are asked of a case, field by field.
ghost use Rattle.std.specs.Prelude.{◌≡◌, ℕ, pos, is_some, option_map, map};
ghost use Rattle.std.specs.List.{list_all};
ghost use Rattle.serde_json.specs.View.{view};
ghost use Rattle.pv_case.specs.Checks.{Answers, each, of_any};
ghost use Rattle.pv_case.specs.Fields.{wanted, text, lies, integer, version, name, is_name, is_name_byte, entry, limits, is_file, certificate_in, certificate};

use crate::case::{
    MAX_DEPTH, MAX_LEMMAS, MAX_LOOP_BOUND, MAX_NAME, MAX_REGION_WORDS, MIN_REGION_WORDS,
};
use crate::checks::{Breach, ask};
use crate::fault::Kind;
use crate::members::{integer_at, is_short, text_at, text_in};
use serde_json::Value;

/// Whether the member is there.
pub(crate) fn wanted<'a>(d: &Value, key: &'a str) -> Result<(), Breach<'a>>
    ensures { Answers (wanted (view d.now) key.now) result }
{
    ask(d.get(key).is_some(), Kind::MissingField, key)
}

/// Whether the member is a text.
pub(crate) fn text<'a>(d: &Value, key: &'a str) -> Result<(), Breach<'a>>
    ensures { Answers (text (view d.now) key.now) result }
{
    ask(text_at(d, key).is_some(), Kind::WrongKind, key)
}

/// Whether there is an integer, within the bounds.
fn lies(least: i128, most: i128, n: Option<i128>) -> bool
    ensures { result ≡ lies least most n }
{
    match n {
        Some(n) => least <= n && n <= most,
        None => false,
    }
}

/// Whether the member is there, an integer, and within the bounds.
fn integer<'a>(key: &'a str, least: i128, most: i128, d: &Value) -> Result<(), Breach<'a>>
    ensures { Answers (integer key.now least most (view d.now)) result }
{
    wanted(d, key)?;
    let n = integer_at(d, key);
    ask(n.is_some(), Kind::WrongKind, key)?;
    ask(lies(least, most, n), Kind::OutOfLimit, key)
}

pub(crate) fn version(d: &Value) -> Result<(), Breach<'static>>
    ensures { Answers (version (view d.now)) result }
{
    integer("version", 1, 1, d)
}

fn is_name_byte(byte: u8) -> bool
    ensures { result ≡ is_name_byte byte }
{
    byte.is_ascii_alphanumeric() || byte == b'_' || byte == b'-'
}

fn are_name_bytes(bytes: &[u8]) -> bool
    ensures { result ≡ list_all is_name_byte bytes.now }
{
    bytes.iter().all(|&byte| is_name_byte(byte))
}

fn is_name(name: &str) -> bool
    ensures { result ≡ is_name name.now }
{
    name.len() >= 1 && name.len() <= MAX_NAME && are_name_bytes(name.as_bytes())
}

pub(crate) fn name(d: &Value) -> Result<(), Breach<'static>>
    ensures { Answers (name (view d.now)) result }
{
    wanted(d, "name")?;
    text(d, "name")?;
    ask(is_name(text_in(d, "name")), Kind::OutOfLimit, "name")
}

pub(crate) fn entry(d: &Value) -> Result<(), Breach<'static>>
    ensures { Answers (entry (view d.now)) result }
{
    wanted(d, "entry")?;
    text(d, "entry")?;
    ask(is_short(text_in(d, "entry")), Kind::OutOfLimit, "entry")
}

pub(crate) fn limits(d: &Value) -> Result<(), Breach<'static>>
    ensures { Answers (limits (view d.now)) result }
{
    integer("loopBound", 1, i128::from(MAX_LOOP_BOUND), d)?;
    integer("depth", 0, i128::from(MAX_DEPTH), d)?;
    integer("lemmas", 1, i128::from(MAX_LEMMAS), d)?;
    integer(
        "regionWords",
        i128::from(MIN_REGION_WORDS),
        i128::from(MAX_REGION_WORDS),
        d,
    )
}

/// Whether a text names a file.
pub(crate) fn is_file(file: &str) -> bool
    ensures { result ≡ is_file file.now }
{
    file.len() >= 1 && is_short(file)
}

fn certificate_in(v: &Value) -> Result<(), Breach<'static>>
    ensures { Answers (certificate_in (view v.now)) result }
{
    ask(v.is_string(), Kind::WrongKind, "certificate")?;
    ask(
        is_file(v.as_str().unwrap_or("")),
        Kind::OutOfLimit,
        "certificate",
    )
}

pub(crate) fn certificate(d: &Value) -> Result<(), Breach<'static>>
    ensures { Answers (certificate (view d.now)) result }
{
    match d.get("certificate") {
        Some(v) => certificate_in(v),
        None => Ok(()),
    }
}
