ghost use Rattle.std.specs.Prelude.{◌≡◌, IfOk, OnOk};
ghost use Rattle.serde_json.specs.Data.{put as with_member};
ghost use Rattle.serde_json.specs.View.{view, members_view};
ghost use Rattle.reply_values.specs.Digests.{hex_data};
ghost use Rattle.reply_values.specs.Json.{object_of};
ghost use Rattle.reply_values.specs.Refusals.{plain_fields, unknown_fields, limit_fields, clock_fields, replica_fields, group_fields, state_fields, digest_damage_fields, form_damage_fields, corrupt_fields};

use crate::digest::hex_value;
use crate::fields::{put_bool, put_number, put_text, put_value};
use m3_model::Damage;
use serde_json::{Map, Value};
use std::alloc::{AllocError, Global};

/// A refusal that says no more than its kind.
pub fn plain_value(alloc: Global, code: u64, error: &str) -> Result<Value, AllocError>
    ensures { IfOk result (λ value. view value ≡ object_of (plain_fields code error.now)) }
{
    let mut map = Map::new(alloc);
    put_number(&mut map, alloc, "code", code)?;
    put_text(&mut map, alloc, "error", error)?;
    put_bool(&mut map, alloc, "ok", false)?;
    Ok(Value::Object(map))
}

/// The name isn't known.
pub fn unknown_value(alloc: Global, name: &str) -> Result<Value, AllocError>
    ensures { IfOk result (λ value. view value ≡ object_of (unknown_fields name.now)) }
{
    let mut map = Map::new(alloc);
    put_number(&mut map, alloc, "code", 4)?;
    put_text(&mut map, alloc, "error", "unknown")?;
    put_text(&mut map, alloc, "name", name)?;
    put_bool(&mut map, alloc, "ok", false)?;
    Ok(Value::Object(map))
}

/// The request passes a limit.
pub fn limit_value(alloc: Global, limit: u64) -> Result<Value, AllocError>
    ensures { IfOk result (λ value. view value ≡ object_of (limit_fields limit)) }
{
    let mut map = Map::new(alloc);
    put_number(&mut map, alloc, "code", 5)?;
    put_text(&mut map, alloc, "error", "limit")?;
    put_number(&mut map, alloc, "limit", limit)?;
    put_bool(&mut map, alloc, "ok", false)?;
    Ok(Value::Object(map))
}

/// The request would move the clock back.
pub fn clock_value(alloc: Global, now: u64) -> Result<Value, AllocError>
    ensures { IfOk result (λ value. view value ≡ object_of (clock_fields now)) }
{
    let mut map = Map::new(alloc);
    put_number(&mut map, alloc, "code", 6)?;
    put_text(&mut map, alloc, "error", "clock")?;
    put_number(&mut map, alloc, "now", now)?;
    put_bool(&mut map, alloc, "ok", false)?;
    Ok(Value::Object(map))
}

/// One replica refused.
pub fn replica_value(
    alloc: Global,
    code: u64,
    error: &str,
    node: &str,
    shard: u32,
) -> Result<Value, AllocError>
    ensures { IfOk result (λ value. view value ≡ object_of (replica_fields code error.now node.now shard)) }
{
    let mut map = Map::new(alloc);
    put_number(&mut map, alloc, "code", code)?;
    put_text(&mut map, alloc, "error", error)?;
    put_text(&mut map, alloc, "node", node)?;
    put_bool(&mut map, alloc, "ok", false)?;
    put_number(&mut map, alloc, "shard", u64::from(shard))?;
    Ok(Value::Object(map))
}

/// The replicas of the shard can't all stand in groups of their own.
pub fn group_value(alloc: Global, shard: u32) -> Result<Value, AllocError>
    ensures { IfOk result (λ value. view value ≡ object_of (group_fields shard)) }
{
    let mut map = Map::new(alloc);
    put_number(&mut map, alloc, "code", 9)?;
    put_text(&mut map, alloc, "error", "group")?;
    put_bool(&mut map, alloc, "ok", false)?;
    put_number(&mut map, alloc, "shard", u64::from(shard))?;
    Ok(Value::Object(map))
}

/// The node isn't in the state asked for.
pub fn state_value(alloc: Global, node: &str) -> Result<Value, AllocError>
    ensures { IfOk result (λ value. view value ≡ object_of (state_fields node.now)) }
{
    let mut map = Map::new(alloc);
    put_number(&mut map, alloc, "code", 12)?;
    put_text(&mut map, alloc, "error", "state")?;
    put_text(&mut map, alloc, "node", node)?;
    put_bool(&mut map, alloc, "ok", false)?;
    Ok(Value::Object(map))
}

fn put_hex(
    map: &mut Map<String, Value>,
    alloc: Global,
    key: &str,
    digest: [u8; 32],
) -> Result<(), AllocError>
    ensures ok { OnOk result (members_view map.new.entries ≡ with_member key.now (hex_data digest) (members_view map.old.entries)) }
{
    let text = hex_value(alloc, digest)?;
    put_value(map, alloc, key, text)
}

fn digest_damage_value(
    alloc: Global,
    node: &str,
    shard: u32,
    file: &str,
    kept: [u8; 32],
    found: [u8; 32],
) -> Result<Value, AllocError>
    ensures { IfOk result (λ value. view value ≡ object_of (digest_damage_fields node.now shard file.now kept found)) }
{
    let mut map = Map::new(alloc);
    put_number(&mut map, alloc, "code", 15)?;
    put_text(&mut map, alloc, "error", "corrupt")?;
    put_text(&mut map, alloc, "file", file)?;
    put_hex(&mut map, alloc, "found", found)?;
    put_hex(&mut map, alloc, "kept", kept)?;
    put_text(&mut map, alloc, "node", node)?;
    put_bool(&mut map, alloc, "ok", false)?;
    put_number(&mut map, alloc, "shard", u64::from(shard))?;
    Ok(Value::Object(map))
}

fn form_damage_value(
    alloc: Global,
    node: &str,
    shard: u32,
    file: &str,
    at: u64,
) -> Result<Value, AllocError>
    ensures { IfOk result (λ value. view value ≡ object_of (form_damage_fields node.now shard file.now at)) }
{
    let mut map = Map::new(alloc);
    put_number(&mut map, alloc, "at", at)?;
    put_number(&mut map, alloc, "code", 15)?;
    put_text(&mut map, alloc, "error", "corrupt")?;
    put_text(&mut map, alloc, "file", file)?;
    put_text(&mut map, alloc, "node", node)?;
    put_bool(&mut map, alloc, "ok", false)?;
    put_number(&mut map, alloc, "shard", u64::from(shard))?;
    Ok(Value::Object(map))
}

/// A file of a replica is damaged.
pub fn corrupt_value(
    alloc: Global,
    node: &str,
    shard: u32,
    damage: &Damage,
) -> Result<Value, AllocError>
    ensures { IfOk result (λ value. view value ≡ object_of (corrupt_fields node.now shard damage.now)) }
{
    match damage {
        Damage::Digest { file, kept, found } => {
            digest_damage_value(alloc, node, shard, file.as_str(), *kept, *found)
        }
        Damage::Form { file, at } => form_damage_value(alloc, node, shard, file.as_str(), *at),
    }
}
