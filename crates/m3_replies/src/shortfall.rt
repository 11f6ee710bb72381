ghost use Rattle.std.specs.Prelude.{◌≡◌, IfOk};
ghost use Rattle.serde_json.specs.View.{view};
ghost use Rattle.reply_values.specs.Json.{object_of};
ghost use Rattle.m3_replies.specs.Shortfalls.{quorum_fields};

use m3_model::{Instance, Reason};
use reply_items::put_list;
use reply_values::{put_bool, put_number, put_text};
use serde_json::{Map, Value};
use std::alloc::{AllocError, Global};

/// How many replicas of a shard answered, how many were needed, and why others didn't.
#[derive(Clone, Copy)]
pub struct Shortfall<'a> {
    pub got: u32,
    pub needed: u32,
    pub reasons: &'a [(u8, Reason)],
    pub shard: u32,
}

/// Too few replicas answered.
pub fn quorum_value(
    alloc: Global,
    instances: &[Instance],
    code: u64,
    error: &str,
    shortfall: Shortfall,
) -> Result<Value, AllocError>
    ensures { IfOk result (λ value. view value ≡ object_of (quorum_fields code error.now instances.now
        shortfall.entry.got shortfall.entry.needed shortfall.entry.reasons.now shortfall.entry.shard)) }
{
    let mut map = Map::new(alloc);
    put_number(&mut map, alloc, "code", code)?;
    put_text(&mut map, alloc, "error", error)?;
    put_number(&mut map, alloc, "got", u64::from(shortfall.got))?;
    put_number(&mut map, alloc, "needed", u64::from(shortfall.needed))?;
    put_bool(&mut map, alloc, "ok", false)?;
    put_list(&mut map, alloc, "reasons", instances, shortfall.reasons)?;
    put_number(&mut map, alloc, "shard", u64::from(shortfall.shard))?;
    Ok(Value::Object(map))
}
