ghost use Rattle.std.specs.Prelude.{◌≡◌, map, IfOk};
ghost use Rattle.serde_json.specs.View.{view};
ghost use Rattle.reply_values.specs.Json.{list_of};

use m3_model::{Instance, Seq};
use serde_json::Value;
use std::alloc::{AllocError, Global};

/// A value that stands in replies.
pub trait ToJson {
    /// Its JSON, where the names of nodes come from these instances.
    ghost use Rattle.std.specs.Prelude.{List};
    ghost use Rattle.serde_json.specs.Data.{Data};
    ghost use Rattle.m3_model.specs.declared.placement.Instance.{Instance};

    ghost data_of: { List Instance → Self → Data };

    fn to_json(&self, alloc: Global, instances: &[Instance]) -> Result<Value, AllocError>
        ensures { IfOk result (λ value. view value ≡ data_of instances.now self.now) };
}

fn values_of<T: ToJson>(
    alloc: Global,
    instances: &[Instance],
    items: &[T],
) -> Result<Vec<Value>, AllocError>
    ensures { IfOk result (λ values. map view values.items ≡ map (T.data_of instances.now) items.now) }
{
    let mut values = Vec::new(alloc);
    for item in items {
        values.push(item.to_json(alloc, instances)?)?;
    }
    Ok(values)
}

/// The list of what stands for each item, in their order.
pub fn list_value<T: ToJson>(
    alloc: Global,
    instances: &[Instance],
    items: &[T],
) -> Result<Value, AllocError>
    ensures { IfOk result (λ value. view value ≡ list_of (T.data_of instances.now) items.now) }
{
    Ok(Value::Array(values_of(alloc, instances, items)?))
}

impl<T: ToJson> ToJson for Seq<T> {
    ghost data_of = { λ instances items. list_of (T.data_of instances) items };

    fn to_json(&self, alloc: Global, instances: &[Instance]) -> Result<Value, AllocError> {
        list_value(alloc, instances, self.as_slice())
    }
}
