ghost use Rattle.std.specs.Prelude.{◌≡◌, map, IfOk, IfErr, OnErr, MatchBool};
ghost use Rattle.std.specs.FinMap as finite;
ghost use Rattle.std.specs.FinMap.{find};
ghost use Rattle.std.specs.BTreeMap.{insert_entry};
ghost use Rattle.std.specs.BTreeMap.Range.{IsLtBy, entries_between};
ghost use Rattle.std.specs.declared.ops.Bound.TheVariants.{Included, Excluded};
ghost use Rattle.m3_model.specs.Keys.{key_cmp};
ghost use Rattle.m3_model.specs.Contents.{raised, is_higher, key_of, timed, range_of};

use crate::memory::Memory;
use crate::point::{Key, Point};
use crate::seq::Seq;
use crate::text::Text;
use raised_entries::raise_entry;
use std::alloc::Global;
use std::collections::BTreeMap;
use std::marker::Model;

/// A map from keys to values, of which the higher one stays at each key. A point is joined and looked up in
/// logarithmic time.
#[derive(Drop)]
pub struct Content {
    entries: BTreeMap<Key, i64>,
}

impl Model for Content {
    ghost use Rattle.std.specs.Prelude.{IsTrue};
    ghost use Rattle.std.specs.FinMap.{from_sorted, is_sorted};
    ghost use Rattle.m3_model.specs.Keys.{key_cmp};
    ghost use Rattle.m3_model.specs.Contents.{Contents, contents_code};

    ghost Value = { Contents };

    ghost coded = { contents_code };

    ghost view = { λ c. from_sorted c.entries.entries };

    ghost invariant = { λ c. IsTrue (is_sorted key_cmp c.entries.entries) };
}

// The times and values of the entries from one key up to another.
fn pairs_between(
    alloc: Global,
    entries: &BTreeMap<Key, i64>,
    low: Key,
    high: Key,
) -> Result<Vec<(u64, i64)>, Memory>
    requires { IsLtBy key_cmp low high }
    ensures { IfOk result (λ pairs. pairs.items
        ≡ map timed (entries_between key_cmp (Included low) (Excluded high) entries.now.entries)) }
{
    let mut pairs = Vec::new(alloc);
    for (key, value) in entries.range(low..high) {
        pairs.push((key.t, *value))?;
    }
    Ok(pairs)
}

impl Content {
    /// The content without points. Takes no memory.
    pub fn new(alloc: Global) -> Content
        ensures { result ≡ finite.empty }
    {
        Content {
            entries: BTreeMap::new(alloc),
        }
    }

    /// Joins the point, and says whether that changed the content. Want of memory changes nothing and hands the
    /// point back.
    pub fn raise(&mut self, point: Point) -> Result<bool, Point>
        ensures joined { IfOk result (λ b. self.new ≡ raised self.old point) }
        ensures changed { IfOk result (λ b. b ≡ is_higher (finite.get self.old (key_of point)) point.v) }
        ensures back { IfErr result (λ p. p ≡ point) }
        ensures err { OnErr result (self.new ≡ self.old) }
    {
        let Point { ns, id, t, v } = point;
        match raise_entry(&mut self.entries, Key { ns, id, t }, v) {
            Ok(changed) => Ok(changed),
            Err(key) => {
                let Key { ns, id, t } = key;
                Err(Point { ns, id, t, v })
            }
        }
    }

    /// The pairs of the identifier with `from <= t < to`, by ascending time.
    pub fn range(
        &self,
        alloc: Global,
        ns: u8,
        id: &str,
        from: u64,
        to: u64,
    ) -> Result<Seq<(u64, i64)>, Memory>
        ensures { IfOk result (λ pairs. pairs ≡ range_of self.now ns id.now from to) }
    {
        if to <= from {
            return Ok(Seq::new(alloc));
        }
        let low = key_at(alloc, ns, id, from)?;
        let high = key_at(alloc, ns, id, to)?;
        let pairs = pairs_between(alloc, &self.entries, low, high)?;
        Ok(Seq::from_vec(pairs))
    }
}

fn key_at(alloc: Global, ns: u8, id: &str, t: u64) -> Result<Key, Memory>
    ensures { IfOk result (λ key. key ≡ record { ns = ns; id = id.now; t = t }) }
{
    Ok(Key {
        ns,
        id: Text::from_str(alloc, id)?,
        t,
    })
}
