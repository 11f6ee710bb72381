ghost use Rattle.reply_items.specs.Repairs.{digest_data, repair_data};

use crate::fields::put_list;
use crate::json::ToJson;
use crate::names::node_name;
use m3_model::{Instance, RepairLine};
use reply_values::{hex_value, push_text, put_number};
use serde_json::{Map, Value};
use std::alloc::{AllocError, Global};

/// A node with its digest.
impl ToJson for (u8, [u8; 32]) {
    ghost data_of = { digest_data };

    fn to_json(&self, alloc: Global, instances: &[Instance]) -> Result<Value, AllocError> {
        let mut row = Vec::new(alloc);
        push_text(&mut row, alloc, node_name(instances, self.0))?;
        row.push(hex_value(alloc, self.1)?)?;
        Ok(Value::Array(row))
    }
}

impl ToJson for RepairLine {
    ghost data_of = { repair_data };

    fn to_json(&self, alloc: Global, instances: &[Instance]) -> Result<Value, AllocError> {
        let mut map = Map::new(alloc);
        put_list(
            &mut map,
            alloc,
            "digests",
            instances,
            self.digests.as_slice(),
        )?;
        put_list(&mut map, alloc, "failed", instances, self.failed.as_slice())?;
        put_number(&mut map, alloc, "merged", self.merged)?;
        put_number(&mut map, alloc, "shard", u64::from(self.shard))?;
        Ok(Value::Object(map))
    }
}
