ghost use Rattle.std.specs.Prelude.{◌≡◌, [], map, IfOk, OnOk, OnErr};
ghost use Rattle.std.specs.Ordering.{nat_cmp};
ghost use Rattle.std.specs.Cmp.Lexicographic.{slice_cmp};
ghost use Rattle.std.specs.FinMap.{put};
ghost use Rattle.std.specs.BTreeMap.{values as in_order};
ghost use Rattle.serde_json.specs.View.{view};
ghost use Rattle.reply_values.specs.Order.{roll_entries};
ghost use Rattle.reply_values.specs.Json.{array_of};

use serde_json::{Map, Value};
use std::alloc::{AllocError, Global};

/// Values that will stand in the order of their names.
#[derive(Drop)]
pub struct Roll {
    values: Map<String, Value>,
}

fn values_in_order(alloc: Global, map: Map<String, Value>) -> Result<Vec<Value>, AllocError>
    ensures { IfOk result (λ values. values.items ≡ in_order map) }
{
    map.into_values().collect(alloc)
}

impl Roll {
    pub fn new(alloc: Global) -> Roll
        ensures { roll_entries result ≡ [] }
    {
        Roll {
            values: Map::new(alloc),
        }
    }

    /// Puts the value at the name, in place of one that stands there.
    pub fn enroll(&mut self, alloc: Global, name: &str, value: Value) -> Result<(), AllocError>
        ensures ok { OnOk result (roll_entries self.new ≡ put (slice_cmp nat_cmp) name.now (view value) (roll_entries self.old)) }
        ensures err { OnErr result (roll_entries self.new ≡ roll_entries self.old) }
    {
        let name = String::from_str(alloc, name)?;
        drop(self.values.insert(name, value)?);
        Ok(())
    }

    /// The list of the values.
    pub fn into_list(self, alloc: Global) -> Result<Value, AllocError>
        ensures { IfOk result (λ list. view list ≡ array_of (map (λ e. e.1) (roll_entries self))) }
    {
        Ok(Value::Array(values_in_order(alloc, self.values)?))
    }
}
