ghost use Rattle.std.specs.Prelude.{◌≡◌, IfOk};
ghost use Rattle.serde_json.specs.View.{view};
ghost use Rattle.reply_items.specs.Series.{pair_data, series_data};

use crate::fields::put_list;
use crate::json::ToJson;
use m3_model::{Instance, Series};
use reply_values::put_text;
use serde_json::{Map, Value, json};
use std::alloc::{AllocError, Global};

/// A time with its value.
impl ToJson for (u64, i64) {
    ghost data_of = { λ _ pair. pair_data pair };

    fn to_json(&self, alloc: Global, _instances: &[Instance]) -> Result<Value, AllocError> {
        let (t, v) = *self;
        json!(in alloc; [t, v])
    }
}

impl ToJson for Series {
    ghost data_of = { λ _ series. series_data series };

    fn to_json(&self, alloc: Global, instances: &[Instance]) -> Result<Value, AllocError> {
        let mut map = Map::new(alloc);
        put_text(&mut map, alloc, "id", self.id.as_str())?;
        put_list(&mut map, alloc, "points", instances, self.points.as_slice())?;
        Ok(Value::Object(map))
    }
}
