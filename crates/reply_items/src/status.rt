ghost use Rattle.reply_items.specs.Statuses.{status_data};

use crate::json::ToJson;
use crate::names::node_name;
use m3_model::{Instance, StatusLine};
use reply_values::{put_number, put_text, standing_text, state_text};
use serde_json::{Map, Value};
use std::alloc::{AllocError, Global};

impl ToJson for StatusLine {
    ghost data_of = { status_data };

    fn to_json(&self, alloc: Global, instances: &[Instance]) -> Result<Value, AllocError> {
        let mut map = Map::new(alloc);
        put_number(&mut map, alloc, "buffered", self.buffered)?;
        put_number(&mut map, alloc, "fence", self.fence)?;
        put_text(&mut map, alloc, "node", node_name(instances, self.node))?;
        put_number(&mut map, alloc, "segments", self.segments)?;
        put_number(&mut map, alloc, "shard", u64::from(self.shard))?;
        put_number(&mut map, alloc, "snapshot", self.snapshot)?;
        put_text(&mut map, alloc, "standing", standing_text(self.standing))?;
        put_text(&mut map, alloc, "state", state_text(self.state))?;
        put_number(&mut map, alloc, "volumes", self.volumes)?;
        Ok(Value::Object(map))
    }
}
