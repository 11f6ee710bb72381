ghost use Rattle.std.specs.Prelude.{◌≡◌, [], IfOk, OnOk};

use m3_model::{Duplicate, Memory, Text};
use std::alloc::Global;
use std::cmp::Ordering;
use std::hash::{Hash, Hasher};
use std::mem;

/// A series: the position of its namespace among the namespaces, and its identifier.
#[derive(Drop)]
pub struct SeriesKey {
    pub ns: u8,
    pub id: Text,
}

// The text in the memory of another.
fn refilled(other: Text, text: &str) -> Result<Text, Memory>
    ensures { IfOk result (λ filled. filled ≡ text.now) }
{
    let mut string = other.into_string();
    string.clear();
    string.push_str(text)?;
    Ok(Text::from_string(string))
}

impl SeriesKey {
    /// The key of the series without a name. Takes no memory.
    pub fn new(alloc: Global) -> SeriesKey
        ensures { result ≡ record { ns = 0; id = [] } }
    {
        SeriesKey {
            ns: 0,
            id: Text::from_string(String::new(alloc)),
        }
    }

    /// Makes it the key of this series. Takes memory only where the identifier is longer than all before.
    ///
    /// # Errors
    ///
    /// Want of memory leaves the key of some series.
    pub fn set(&mut self, alloc: Global, ns: u8, id: &Text) -> Result<(), Memory>
        ensures { OnOk result (self.new ≡ record { ns = ns; id = id.now }) }
    {
        let none = Text::from_string(String::new(alloc));
        let id = refilled(mem::replace(&mut self.id, none), id.as_str())?;
        drop(mem::replace(&mut self.id, id));
        self.ns = ns;
        Ok(())
    }
}

impl Duplicate for SeriesKey {
    fn copy(&self, alloc: Global) -> Result<SeriesKey, Memory> {
        Ok(SeriesKey {
            ns: self.ns,
            id: self.id.copy(alloc)?,
        })
    }
}

impl PartialEq for SeriesKey {
    ghost use Rattle.std.proofs.Common.{rules};
    ghost use Rattle.std.specs.Cmp.Rules.{comparing};
    ghost use Rattle.series_slots.specs.SeriesKeys.{series_eq};

    ghost eq = { series_eq };

    ghost laws = { Prim.search (comparing, rules) };

    fn eq(&self, other: &SeriesKey) -> bool {
        self.ns == other.ns && self.id == other.id
    }
}

impl Eq for SeriesKey {
    ghost use Rattle.std.proofs.Common.{rules};
    ghost use Rattle.std.specs.Cmp.Rules.{comparing};

    ghost laws = { Prim.search (comparing, rules) };
}

impl PartialOrd for SeriesKey {
    ghost use Rattle.std.specs.Ordering.{as_partial_cmp};
    ghost use Rattle.std.specs.Cmp.{partial_order_from_own_ties};
    ghost use Rattle.std.proofs.Common.{rules};
    ghost use Rattle.std.specs.Cmp.Rules.{comparing};
    ghost use Rattle.series_slots.specs.SeriesKeys.{series_cmp};

    ghost partial_cmp = { as_partial_cmp series_cmp };

    ghost laws = { partial_order_from_own_ties (Prim.search (comparing, rules)) (Prim.search (comparing, rules)) };

    fn partial_cmp(&self, other: &SeriesKey) -> Option<Ordering> {
        Some(self.cmp(other))
    }
}

impl Ord for SeriesKey {
    ghost use Rattle.std.proofs.Common.{rules};
    ghost use Rattle.std.specs.Cmp.Rules.{comparing};
    ghost use Rattle.series_slots.specs.SeriesKeys.{series_cmp};

    ghost cmp = { series_cmp };

    ghost total = { Prim.search (comparing, rules) };

    ghost matches_partial_cmp = { Prim.search (comparing, rules) };

    ghost matches_eq = { Prim.search (comparing, rules) };

    fn cmp(&self, other: &SeriesKey) -> Ordering {
        self.ns.cmp(&other.ns).then(self.id.cmp(&other.id))
    }
}

impl Hash for SeriesKey {
    ghost use Rattle.std.specs.Prelude.{◌++◌};
    ghost use Rattle.std.specs.Hash as fed;
    ghost use Rattle.std.proofs.Common.{rules};
    ghost use Rattle.std.specs.Cmp.Rules.{hashing};

    ghost hash_input = { λ k. fed.u8 k.ns ++ fed.str k.id };

    ghost respects_eq = { Prim.search (hashing, rules) };

    fn hash<H: Hasher>(&self, state: &mut H) {
        self.ns.hash(state);
        self.id.as_str().hash(state);
    }
}
