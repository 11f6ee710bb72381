ghost use Rattle.std.specs.Prelude.{◌≡◌, IfOk};
ghost use Rattle.serde_json.specs.View.{view};
ghost use Rattle.reply_items.specs.Outcomes.{outcome_data, merged_data, swept_data, failed_data};

use crate::json::{ToJson, list_value};
use crate::names::node_name;
use crate::reason::push_reason;
use m3_model::{Instance, Reason, Seq};
use reply_values::{push_number, push_text};
use serde_json::Value;
use std::alloc::{AllocError, Global};

/// A node and a shard, with the reason where the write wasn't taken.
impl ToJson for (u8, u32, Option<Reason>) {
    ghost data_of = { outcome_data };

    fn to_json(&self, alloc: Global, instances: &[Instance]) -> Result<Value, AllocError> {
        let mut row = Vec::new(alloc);
        push_text(&mut row, alloc, node_name(instances, self.0))?;
        push_number(&mut row, u64::from(self.1))?;
        match &self.2 {
            None => push_text(&mut row, alloc, "took")?,
            Some(reason) => push_reason(&mut row, alloc, reason)?,
        }
        Ok(Value::Array(row))
    }
}

/// A shard with the peers that were merged into it.
impl ToJson for (u32, Seq<u8>) {
    ghost data_of = { merged_data };

    fn to_json(&self, alloc: Global, instances: &[Instance]) -> Result<Value, AllocError> {
        let mut row = Vec::new(alloc);
        push_number(&mut row, u64::from(self.0))?;
        row.push(list_value(alloc, instances, self.1.as_slice())?)?;
        Ok(Value::Array(row))
    }
}

/// A node and a shard with a count of what was done.
impl ToJson for (u8, u32, u64) {
    ghost data_of = { swept_data };

    fn to_json(&self, alloc: Global, instances: &[Instance]) -> Result<Value, AllocError> {
        let mut row = Vec::new(alloc);
        push_text(&mut row, alloc, node_name(instances, self.0))?;
        push_number(&mut row, u64::from(self.1))?;
        push_number(&mut row, self.2)?;
        Ok(Value::Array(row))
    }
}

/// A node and a shard with the reason why nothing was done.
impl ToJson for (u8, u32, Reason) {
    ghost data_of = { failed_data };

    fn to_json(&self, alloc: Global, instances: &[Instance]) -> Result<Value, AllocError> {
        let mut row = Vec::new(alloc);
        push_text(&mut row, alloc, node_name(instances, self.0))?;
        push_number(&mut row, u64::from(self.1))?;
        push_reason(&mut row, alloc, &self.2)?;
        Ok(Value::Array(row))
    }
}
