//! An object's fields, put one after the other.
ghost use Rattle.std.specs.Prelude.{◌≡◌, OnOk};
ghost use Rattle.serde_json.specs.Data.{boolean, string, put as with_member};
ghost use Rattle.serde_json.specs.View.{view, members_view};
ghost use Rattle.reply_values.specs.Json.{natural};

use serde_json::{Map, Value};
use std::alloc::{AllocError, Global};

/// Puts a value under a key.
pub fn put_value(
    map: &mut Map<String, Value>,
    alloc: Global,
    key: &str,
    value: Value,
) -> Result<(), AllocError>
    ensures ok { OnOk result (members_view map.new.entries ≡ with_member key.now (view value) (members_view map.old.entries)) }
{
    serde_json::put(map, alloc, key, value)
}

/// Puts a number under a key.
pub fn put_number(
    map: &mut Map<String, Value>,
    alloc: Global,
    key: &str,
    n: u64,
) -> Result<(), AllocError>
    ensures ok { OnOk result (members_view map.new.entries ≡ with_member key.now (natural n) (members_view map.old.entries)) }
{
    put_value(map, alloc, key, Value::from(n))
}

/// Puts a word that is true or false under a key.
pub fn put_bool(
    map: &mut Map<String, Value>,
    alloc: Global,
    key: &str,
    is: bool,
) -> Result<(), AllocError>
    ensures ok { OnOk result (members_view map.new.entries ≡ with_member key.now (boolean is) (members_view map.old.entries)) }
{
    put_value(map, alloc, key, Value::from(is))
}

/// Puts a text under a key.
pub fn put_text(
    map: &mut Map<String, Value>,
    alloc: Global,
    key: &str,
    text: &str,
) -> Result<(), AllocError>
    ensures ok { OnOk result (members_view map.new.entries ≡ with_member key.now (string text.now) (members_view map.old.entries)) }
{
    let text = Value::try_from_str(alloc, text)?;
    put_value(map, alloc, key, text)
}
