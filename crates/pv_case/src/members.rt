//! Looking into a JSON value.
ghost use Rattle.std.specs.Prelude.{◌≡◌, ℕ, List, map, string_bytes, option_map, is_some};
ghost use Rattle.std.specs.declared.alloc.Global.{Global as The_heap};
ghost use Rattle.serde_json.specs.Data.{Data};
ghost use Rattle.serde_json.specs.View.{view};
ghost use Rattle.serde_json.specs.declared.value.Value.{Value as A_value};
ghost use Rattle.pv_case.specs.Members.{items_in, pairs_in, integer_of, text_at, text_in, integer_at, items_at, pairs_at, is_short, is_among};
ghost use Rattle.pv_case.specs.Viewed.{pair_of};

use crate::case::MAX_TEXT;
use serde_json::{Map, Value};

/// The items of an array.
pub(crate) fn items_in(d: &Value) -> Option<&[Value]>
    ensures { option_map (λ items. map view items.now) result ≡ items_in (view d.now) }
{
    Some(d.as_array()?.as_slice())
}

/// The members of an object.
pub(crate) fn pairs_in(d: &Value) -> Option<&Map<String, Value>>
    ensures { option_map (λ pairs. map pair_of pairs.now.entries) result ≡ pairs_in (view d.now) }
{
    d.as_object()
}

/// The value as an integer, where it is one.
pub(crate) fn integer_of(d: &Value) -> Option<i128>
    ensures { result ≡ integer_of (view d.now) }
{
    match d.as_u64() {
        Some(n) => Some(i128::from(n)),
        None => d.as_i64().map(i128::from),
    }
}

/// The member's text.
pub(crate) fn text_at<'a>(d: &'a Value, key: &str) -> Option<&'a str>
    ensures { option_map (λ t. t.now) result ≡ text_at (view d.now) key.now }
{
    d.get(key)?.as_str()
}

/// The member's text, or the empty one.
pub(crate) fn text_in<'a>(d: &'a Value, key: &str) -> &'a str
    ensures { result.now ≡ text_in (view d.now) key.now }
{
    text_at(d, key).unwrap_or("")
}

/// The member as an integer, where it is one.
pub(crate) fn integer_at(d: &Value, key: &str) -> Option<i128>
    ensures { result ≡ integer_at (view d.now) key.now }
{
    integer_of(d.get(key)?)
}

/// The items of a member.
pub(crate) fn items_at<'a>(d: &'a Value, key: &str) -> Option<&'a [Value]>
    ensures { option_map (λ items. map view items.now) result ≡ items_at (view d.now) key.now }
{
    items_in(d.get(key)?)
}

/// The members of a member.
pub(crate) fn pairs_at<'a>(d: &'a Value, key: &str) -> Option<&'a Map<String, Value>>
    ensures { option_map (λ pairs. map pair_of pairs.now.entries) result ≡ pairs_at (view d.now) key.now }
{
    pairs_in(d.get(key)?)
}

pub(crate) fn is_short(text: &str) -> bool
    ensures { result ≡ is_short text.now }
{
    text.len() <= MAX_TEXT
}
