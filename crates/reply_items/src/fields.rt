//! An object's fields that are made of what stands for an item.
ghost use Rattle.std.specs.Prelude.{◌≡◌, OnOk};
ghost use Rattle.serde_json.specs.Data.{put as with_member};
ghost use Rattle.serde_json.specs.View.{view, members_view};
ghost use Rattle.reply_values.specs.Json.{list_of};

use crate::json::{ToJson, list_value};
use m3_model::Instance;
use reply_values::put_value;
use serde_json::{Map, Value};
use std::alloc::{AllocError, Global};

/// Puts the list of what stands for each item under a key.
pub fn put_list<T: ToJson>(
    map: &mut Map<String, Value>,
    alloc: Global,
    key: &str,
    instances: &[Instance],
    items: &[T],
) -> Result<(), AllocError>
    ensures ok { OnOk result (members_view map.new.entries ≡ with_member key.now (list_of (T.data_of instances.now) items.now) (members_view map.old.entries)) }
{
    let list = list_value(alloc, instances, items)?;
    put_value(map, alloc, key, list)
}

/// Puts what stands for the item under a key.
pub fn put_item<T: ToJson>(
    map: &mut Map<String, Value>,
    alloc: Global,
    key: &str,
    instances: &[Instance],
    item: &T,
) -> Result<(), AllocError>
    ensures ok { OnOk result (members_view map.new.entries ≡ with_member key.now (T.data_of instances.now item.now) (members_view map.old.entries)) }
{
    let value = item.to_json(alloc, instances)?;
    put_value(map, alloc, key, value)
}
