ghost use Rattle.std.specs.Prelude.{◌≡◌, ◌++◌, map, OnOk};
ghost use Rattle.serde_json.specs.View.{view};
ghost use Rattle.reply_items.specs.Reasons.{reason_word, reason_items, reason_data};

use crate::json::ToJson;
use crate::names::node_name;
use m3_model::{Instance, Reason};
use reply_values::{push_number, push_text};
use serde_json::Value;
use std::alloc::{AllocError, Global};

fn reason_word(reason: &Reason) -> &'static str
    ensures { result.now ≡ reason_word reason.now }
{
    match reason {
        Reason::Cut => "cut",
        Reason::Down => "down",
        Reason::Boot => "boot",
        Reason::NotOwned => "notowned",
        Reason::Stale { .. } => "stale",
        Reason::Past => "past",
        Reason::Future => "future",
        Reason::Disk => "disk",
        Reason::Corrupt(_) => "corrupt",
        Reason::Memory => "memory",
    }
}

/// Adds the items of the reason to the row.
pub fn push_reason(row: &mut Vec<Value>, alloc: Global, reason: &Reason) -> Result<(), AllocError>
    ensures ok { OnOk result (map view row.new.items ≡ map view row.old.items ++ reason_items reason.now) }
{
    push_text(row, alloc, reason_word(reason))?;
    match reason {
        Reason::Stale { fence } => push_number(row, *fence),
        _ => Ok(()),
    }
}

/// A node with its reason.
impl ToJson for (u8, Reason) {
    ghost data_of = { reason_data };

    fn to_json(&self, alloc: Global, instances: &[Instance]) -> Result<Value, AllocError> {
        let mut row = Vec::new(alloc);
        push_text(&mut row, alloc, node_name(instances, self.0))?;
        push_reason(&mut row, alloc, &self.1)?;
        Ok(Value::Array(row))
    }
}
