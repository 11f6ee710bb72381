ghost use Rattle.std.specs.Prelude.{◌≡◌, IfOk};
ghost use Rattle.std.specs.Option.{option_copied};
ghost use Rattle.serde_json.specs.View.{view};
ghost use Rattle.reply_items.specs.Names.{instances_of, node_name, node_data};

use crate::json::ToJson;
use m3_model::{Instance, Placement};
use serde_json::Value;
use std::alloc::{AllocError, Global};

/// The instances of the placement; none where there is no placement.
pub fn instances_of(place: Option<&Placement>) -> &[Instance]
    ensures { result.now ≡ instances_of (option_copied place.entry) }
{
    match place {
        None => &[],
        Some(placement) => placement.instances.as_slice(),
    }
}

/// The name of the node of this number, empty where no instance has it.
pub fn node_name(instances: &[Instance], node: u8) -> &str
    ensures { result.now ≡ node_name instances.now node }
{
    match instances.get(node as usize) {
        None => "",
        Some(instance) => instance.name.as_str(),
    }
}

/// A node's number stands as its name.
impl ToJson for u8 {
    ghost data_of = { node_data };

    fn to_json(&self, alloc: Global, instances: &[Instance]) -> Result<Value, AllocError> {
        Value::try_from_str(alloc, node_name(instances, *self))
    }
}
