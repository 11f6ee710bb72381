ghost use Rattle.std.specs.Prelude.{◌≡◌, IfOk};
ghost use Rattle.serde_json.specs.View.{view};
ghost use Rattle.m3_replies.specs.Replies.{answer_data};

use m3_model::{Answer, Instance, Placement, Reason, RepairLine, Seq, Series, StatusLine};
use reply_items::{put_item, put_list};
use reply_values::{put_bool, put_number};
use serde_json::{Map, Value};
use std::alloc::{AllocError, Global};

/// A placement was made or changed.
pub fn placed_value(
    alloc: Global,
    instances: &[Instance],
    placement: &Placement,
    version: u64,
) -> Result<Value, AllocError>
    ensures { IfOk result (λ value. view value ≡ answer_data instances.now (Answer.Placed placement.now version)) }
{
    let mut map = Map::new(alloc);
    put_bool(&mut map, alloc, "ok", true)?;
    put_item(&mut map, alloc, "placement", instances, placement)?;
    put_number(&mut map, alloc, "version", version)?;
    Ok(Value::Object(map))
}

/// These nodes took a write.
pub fn acks_value(alloc: Global, instances: &[Instance], acks: &[u8]) -> Result<Value, AllocError>
    ensures { IfOk result (λ value. view value ≡ answer_data instances.now (Answer.Acks acks.now)) }
{
    let mut map = Map::new(alloc);
    put_list(&mut map, alloc, "acks", instances, acks)?;
    put_bool(&mut map, alloc, "ok", true)?;
    Ok(Value::Object(map))
}

/// These series were read.
pub fn found_value(
    alloc: Global,
    instances: &[Instance],
    series: &[Series],
    short: bool,
) -> Result<Value, AllocError>
    ensures { IfOk result (λ value. view value ≡ answer_data instances.now (Answer.Found series.now short)) }
{
    let mut map = Map::new(alloc);
    put_bool(&mut map, alloc, "ok", true)?;
    put_list(&mut map, alloc, "series", instances, series)?;
    put_bool(&mut map, alloc, "short", short)?;
    Ok(Value::Object(map))
}

/// What became of writes that were on their way.
pub fn outcomes_value(
    alloc: Global,
    instances: &[Instance],
    outcomes: &[(u8, u32, Option<Reason>)],
) -> Result<Value, AllocError>
    ensures { IfOk result (λ value. view value ≡ answer_data instances.now (Answer.Outcomes outcomes.now)) }
{
    let mut map = Map::new(alloc);
    put_bool(&mut map, alloc, "ok", true)?;
    put_list(&mut map, alloc, "outcomes", instances, outcomes)?;
    Ok(Value::Object(map))
}

/// These shards turned available.
pub fn available_value(
    alloc: Global,
    instances: &[Instance],
    available: &[(u32, Seq<u8>)],
    placement: &Placement,
    version: u64,
) -> Result<Value, AllocError>
    ensures { IfOk result (λ value. view value ≡ answer_data instances.now (Answer.Available available.now placement.now version)) }
{
    let mut map = Map::new(alloc);
    put_list(&mut map, alloc, "available", instances, available)?;
    put_bool(&mut map, alloc, "ok", true)?;
    put_item(&mut map, alloc, "placement", instances, placement)?;
    put_number(&mut map, alloc, "version", version)?;
    Ok(Value::Object(map))
}

/// A sweep was done on these replicas, and not on others.
pub fn swept_value(
    alloc: Global,
    instances: &[Instance],
    done: &[(u8, u32, u64)],
    failed: &[(u8, u32, Reason)],
) -> Result<Value, AllocError>
    ensures { IfOk result (λ value. view value ≡ answer_data instances.now (Answer.Swept done.now failed.now)) }
{
    let mut map = Map::new(alloc);
    put_list(&mut map, alloc, "done", instances, done)?;
    put_list(&mut map, alloc, "failed", instances, failed)?;
    put_bool(&mut map, alloc, "ok", true)?;
    Ok(Value::Object(map))
}

/// What a repair did in each shard.
pub fn repaired_value(
    alloc: Global,
    instances: &[Instance],
    shards: &[RepairLine],
) -> Result<Value, AllocError>
    ensures { IfOk result (λ value. view value ≡ answer_data instances.now (Answer.Repaired shards.now)) }
{
    let mut map = Map::new(alloc);
    put_bool(&mut map, alloc, "ok", true)?;
    put_list(&mut map, alloc, "shards", instances, shards)?;
    Ok(Value::Object(map))
}

/// What each replica says of itself.
pub fn status_value(
    alloc: Global,
    instances: &[Instance],
    now: u64,
    replicas: &[StatusLine],
    version: u64,
) -> Result<Value, AllocError>
    ensures { IfOk result (λ value. view value ≡ answer_data instances.now (Answer.Status now replicas.now version)) }
{
    let mut map = Map::new(alloc);
    put_number(&mut map, alloc, "now", now)?;
    put_bool(&mut map, alloc, "ok", true)?;
    put_list(&mut map, alloc, "replicas", instances, replicas)?;
    put_number(&mut map, alloc, "version", version)?;
    Ok(Value::Object(map))
}
