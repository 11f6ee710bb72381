ghost use Rattle.std.specs.Prelude.{◌≡◌, IfOk};
ghost use Rattle.serde_json.specs.View.{view};
ghost use Rattle.reply_values.specs.Json.{list_of};
ghost use Rattle.reply_items.specs.Placements.{instance_item, instances_data, assignment_item, shard_data, placement_data};

use crate::json::ToJson;
use crate::names::node_name;
use m3_model::{Assignment, Instance, Placement, Seq};
use reply_values::{Roll, push_number, push_text, put_number, put_value, state_text};
use serde_json::{Map, Value};
use std::alloc::{AllocError, Global};

fn instance_value(alloc: Global, instance: &Instance) -> Result<Value, AllocError>
    ensures { IfOk result (λ value. view value ≡ (instance_item instance.now).1) }
{
    let mut row = Vec::new(alloc);
    push_text(&mut row, alloc, instance.name.as_str())?;
    push_text(&mut row, alloc, instance.group.as_str())?;
    row.push(Value::from(instance.drained))?;
    Ok(Value::Array(row))
}

fn instances_value(alloc: Global, instances: &[Instance]) -> Result<Value, AllocError>
    ensures { IfOk result (λ value. view value ≡ instances_data instances.now) }
{
    let mut roll = Roll::new(alloc);
    for instance in instances {
        if instance.listed {
            let value = instance_value(alloc, instance)?;
            roll.enroll(alloc, instance.name.as_str(), value)?;
        }
    }
    roll.into_list(alloc)
}

fn assignment_value(
    alloc: Global,
    instances: &[Instance],
    assignment: &Assignment,
) -> Result<Value, AllocError>
    ensures { IfOk result (λ value. view value ≡ (assignment_item instances.now assignment.now).1) }
{
    let mut row = Vec::new(alloc);
    push_text(&mut row, alloc, node_name(instances, assignment.node))?;
    push_text(&mut row, alloc, state_text(assignment.state))?;
    push_number(&mut row, assignment.tenure)?;
    if let Some(source) = assignment.source {
        push_text(&mut row, alloc, node_name(instances, source))?;
    }
    Ok(Value::Array(row))
}

fn shard_value(
    alloc: Global,
    instances: &[Instance],
    assignments: &[Assignment],
) -> Result<Value, AllocError>
    ensures { IfOk result (λ value. view value ≡ shard_data instances.now assignments.now) }
{
    let mut roll = Roll::new(alloc);
    for assignment in assignments {
        let value = assignment_value(alloc, instances, assignment)?;
        roll.enroll(alloc, node_name(instances, assignment.node), value)?;
    }
    roll.into_list(alloc)
}

fn shards_value(
    alloc: Global,
    instances: &[Instance],
    shards: &[Seq<Assignment>],
) -> Result<Value, AllocError>
    ensures { IfOk result (λ value. view value ≡ list_of (shard_data instances.now) shards.now) }
{
    let mut values = Vec::new(alloc);
    for shard in shards {
        values.push(shard_value(alloc, instances, shard.as_slice())?)?;
    }
    Ok(Value::Array(values))
}

/// The names of its nodes come from its own instances.
impl ToJson for Placement {
    ghost data_of = { λ _ placement. placement_data placement };

    fn to_json(&self, alloc: Global, _instances: &[Instance]) -> Result<Value, AllocError> {
        let own = self.instances.as_slice();
        let mut map = Map::new(alloc);
        put_value(&mut map, alloc, "instances", instances_value(alloc, own)?)?;
        put_number(&mut map, alloc, "rf", u64::from(self.rf))?;
        let shards = shards_value(alloc, own, self.shards.as_slice())?;
        put_value(&mut map, alloc, "shards", shards)?;
        Ok(Value::Object(map))
    }
}
