//! Digests in replies.
ghost use Rattle.std.specs.Prelude.{◌≡◌, IfOk};
ghost use Rattle.serde_json.specs.View.{view};
ghost use Rattle.reply_values.specs.Digests.{hex_data};

use serde_json::Value;
use std::alloc::{AllocError, Global};

/// A digest as 64 lower-case hexadecimal digits.
pub fn hex_value(alloc: Global, digest: [u8; 32]) -> Result<Value, AllocError>
    ensures { IfOk result (λ value. view value ≡ hex_data digest) }
{
    Ok(Value::String(hex::encode(alloc, digest)?))
}
