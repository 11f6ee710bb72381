//! A row's items, pushed one after the other.
ghost use Rattle.std.specs.Prelude.{◌≡◌, ◌++◌, ◌∷◌, [], map, OnOk};
ghost use Rattle.serde_json.specs.Data.{string};
ghost use Rattle.serde_json.specs.View.{view};
ghost use Rattle.reply_values.specs.Json.{natural};

use serde_json::Value;
use std::alloc::{AllocError, Global};

/// Adds a number.
pub fn push_number(row: &mut Vec<Value>, n: u64) -> Result<(), AllocError>
    ensures ok { OnOk result (map view row.new.items ≡ map view row.old.items ++ natural n ∷ []) }
{
    row.push(Value::from(n))?;
    Ok(())
}

/// Adds a text.
pub fn push_text(row: &mut Vec<Value>, alloc: Global, text: &str) -> Result<(), AllocError>
    ensures ok { OnOk result (map view row.new.items ≡ map view row.old.items ++ string text.now ∷ []) }
{
    row.push(Value::try_from_str(alloc, text)?)?;
    Ok(())
}
