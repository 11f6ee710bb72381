ghost use Rattle.std.specs.Prelude.{◌≡◌, ◌⊎◌, ◌+◌, ◌-◌, ◌^◌, ◌<◌, ◌≤◌, List, Some, None, true, false, IsTrue, IsSome, IfOk, IfSome, OnOk, OnErr};
ghost use Rattle.std.specs.List.{All};
ghost use Rattle.std.specs.FinMap as finite;
ghost use Rattle.m3_model.specs.Contents.{raised, raised_at, content_of, key_of};
ghost use Rattle.series_slots.specs.SeriesKeys.{key_at};
ghost use Rattle.series_slots.specs.Above.{HasNoneAbove, IsFirstAbove};
ghost use Rattle.block_buffer.specs.FirstOf.{HasNoneFrom, IsFirstOf};
ghost use Rattle.m3_model.specs.Answers.{IsAnswer};
ghost use Rattle.m3_model.specs.declared.point.Matcher.{Matcher};
ghost use Rattle.m3_model.specs.declared.point.Pick.TheVariants as pick;
ghost use Rattle.series_slots.specs.Ranges.{IsRangeOf};
ghost use Rattle.block_buffer.specs.Blocks.{IsClosedBlocksOf};
ghost use Rattle.block_buffer.specs.Spots.{IsKeyWithin};
ghost use Rattle.block_buffer.specs.Held.{without, has_expired, is_in_block};
ghost use Rattle.block_buffer.specs.Joins.{points_of_series};
ghost use Rattle.block_buffer.specs.Taken.{HasNone, settled_at, settled_with, IsSettledInPart};
ghost use Rattle.held_points.specs.Counted.{TakesOne};
ghost use Rattle.m3_model.specs.declared.limits.TheConstants.{MOST_REPLICA_POINTS};

use crate::candidates::{candidates, names};
use crate::counted::CountedBuffer;
use crate::listing::{forget, list, unlist};
use crate::matching::unequal;
use crate::ranges::ranges;
use m3_model::{Memory, Pick, Point, Rules, Seq, Series, Text};
use series_slots::SeriesKey;
use std::alloc::Global;
use std::marker::Model;
use tag_index::Index;

/// The points of one shard that one replica holds, in memory: at most `MOST_REPLICA_POINTS`. Contracts see it as its content,
/// and beside that the key for which there is room: at it the next `put` takes no memory.
///
/// See M3DB's page "Storage Engine".
pub struct HeldPoints {
    alloc: Global,
    buffer: CountedBuffer,
    // The identifiers that have a point, by their tags, and that of the point for which there is room.
    index: Index,
    // Whether the point for which there is room is the first of its identifier.
    newly: bool,
}

impl Drop for HeldPoints {
    fn drop(self) {
        let HeldPoints {
            alloc: _,
            buffer: _,
            index: _,
            newly: _,
        } = self;
    }
}

impl Model for HeldPoints {
    ghost use Rattle.block_buffer.specs.Spots.{IsKeyWithin};
    ghost use Rattle.block_buffer.specs.Held.{InMemory, held_code};
    ghost use Rattle.held_points.specs.Indexed.{IsIndexedFor};

    ghost Value = { InMemory };

    ghost coded = { held_code };

    ghost view = { λ s. s.buffer };

    ghost invariant = { λ s. IsIndexedFor s.buffer.room s.newly s.buffer.points s.index };
}

impl HeldPoints {
    /// The store without points. Takes no memory.
    pub fn new(alloc: Global) -> HeldPoints
        ensures { result ≡ record { points = finite.empty; room = None } }
    {
        HeldPoints {
            alloc,
            buffer: CountedBuffer::new(alloc),
            index: Index::new(alloc),
            newly: false,
        }
    }

    /// Takes the memory that a `put` of this point needs. Finds the series in constant expected time, and its time in the
    /// logarithm of its times; a series that is new costs logarithmic time for each of its tags.
    ///
    /// # Errors
    ///
    /// Want of memory, always where there are `MOST_REPLICA_POINTS` points and none stands at the key. Nothing changes.
    pub fn room(&mut self, point: &Point) -> Result<(), Memory>
        requires { self.old.room ≡ None }
        ensures ok { OnOk result (self.new ≡ record { points = self.old.points; room = Some (key_of point.now) }) }
        ensures err { OnErr result (self.new ≡ self.old) }
        ensures fits { OnOk result (IsSome (finite.get self.old.points (key_of point.now)) ⊎ (finite.len self.old.points < MOST_REPLICA_POINTS)) }
    {
        let known = self.buffer.room(point)?;
        match list(self.alloc, &mut self.index, known, &point.id) {
            Ok(newly) => {
                self.newly = newly;
                Ok(())
            }
            Err(e) => {
                self.buffer.release();
                Err(e)
            }
        }
    }

    /// Joins the point, for which there is room and of which the higher value stays at its key, and uses up the room. Takes
    /// logarithmic time and no memory.
    pub fn put(&mut self, point: &Point)
        requires { self.old.room ≡ Some (key_of point.now) }
        ensures { self.new ≡ record { points = raised self.old.points point.now; room = None } }
    {
        self.buffer.put(point);
    }

    /// Gives up the room for the point. Takes no memory.
    pub fn release(&mut self, point: &Point)
        requires { self.old.room ≡ Some (key_of point.now) }
        ensures { self.new ≡ record { points = self.old.points; room = None } }
    {
        unlist(&mut self.index, self.newly, &point.id);
        self.buffer.release();
    }

    /// How many points there are, one at each key: never more than `MOST_REPLICA_POINTS`.
    pub fn len(&self) -> u64
        ensures counted { result ≡ finite.len self.now.points }
        ensures limit { result ≤ MOST_REPLICA_POINTS }
    {
        self.buffer.len()
    }

    /// The points with `from <= t < to` of the series that the pick asks for: of the one identifier, or of each
    /// identifier of the namespace for which every matcher holds. Identifiers ascend strictly by bytes, times ascend
    /// strictly, and no series is empty.
    ///
    /// One identifier costs logarithmic time. A match costs time in proportion to the series, of all namespaces, that have
    /// the tags of its matchers of equality, and where it has no such matcher to all series held. Each beside its answer.
    pub fn fetch(&self, pick: &Pick, from: u64, to: u64) -> Result<Seq<Series>, Memory>
        requires { self.now.room ≡ None }
        ensures { IfOk result (IsAnswer self.now.points pick.now from to) }
    {
        match pick {
            Pick::One { .. } => self.buffer.range(self.alloc, pick, from, to),
            Pick::Match { ns, wanted } => {
                let wanted = wanted.as_slice();
                match candidates(self.alloc, &self.index, wanted)? {
                    Some(ordinals) => {
                        let ids = names(self.alloc, &self.index, wanted, ordinals.as_slice())?;
                        ranges(self.alloc, &self.buffer, *ns, ids, from, to)
                    }
                    None => {
                        let found = self.buffer.range(self.alloc, pick, from, to)?;
                        Ok(unequal(found, wanted))
                    }
                }
            }
        }
    }

    /// The namespace and the start of each block of the rules that has a point and of which no write is taken any more, ascending.
    /// Costs as `Buffer::closed_blocks`.
    ///
    /// Block sizes are at least 1, as in all rules within their limits.
    pub fn closed_blocks(&self, rules: &Rules) -> Result<Seq<(u8, u64)>, Memory>
        requires { All (λ space. 0 < space.block) rules.now.spaces }
        ensures { IfOk result (IsClosedBlocksOf rules.entry.now self.now.points) }
    {
        self.buffer.closed_blocks(self.alloc, rules)
    }

    /// The points of the namespace with `start <= t < start + size`, as the rows of a volume: identifiers ascend strictly by
    /// bytes, times ascend strictly, and no series is empty. Costs as `Buffer::block`.
    ///
    /// The end of the block is below 2^64, as that of each block of rules within their limits.
    pub fn block(&self, ns: u8, start: u64, size: u64) -> Result<Seq<Series>, Memory>
        requires { start + size < 2 ^ 64 }
        ensures { IfOk result (λ rows. (wanted : List Matcher) → IsRangeOf self.now.points (pick.Match ns wanted) start (start + size) rows) }
    {
        self.buffer.block(self.alloc, ns, start, size)
    }

    /// Takes the expired points out, and answers how many went. Takes no memory; costs as `Buffer::expire`, and for each identifier that
    /// goes the removal of its tags.
    pub fn expire(&mut self, rules: &Rules) -> u64
        requires { self.old.room ≡ None }
        ensures taken { self.new ≡ record { points = without self.old.points (has_expired rules.entry.now); room = None } }
        ensures counted { result ≡ finite.len self.old.points - finite.len self.new.points }
    {
        let before = self.len();
        while self.take_expired(rules) {}
        before - self.len()
    }

    // Takes an expired point out, and says whether there was one.
    fn take_expired(&mut self, rules: &Rules) -> bool
        requires { self.old.room ≡ None }
        ensures taken { IsTrue result → TakesOne self.old self.new (λ k. has_expired rules.entry.now k ≡ true) }
        ensures none { result ≡ false → (self.new ≡ self.old) × HasNone self.old.points (λ k. has_expired rules.entry.now k ≡ true) }
    {
        match self.buffer.take_expired(rules) {
            Some(taken) => {
                forget(&self.buffer, &mut self.index, taken.gone);
                true
            }
            None => false,
        }
    }

    /// Takes the points of the namespace with `start <= t < start + size` out. Takes no memory; costs as `expire`.
    ///
    /// The end of the block is below 2^64, as that of each block of rules within their limits.
    pub fn drop_block(&mut self, ns: u8, start: u64, size: u64)
        requires room { self.old.room ≡ None }
        requires end { start + size < 2 ^ 64 }
        ensures { self.new ≡ record { points = without self.old.points (is_in_block ns start size); room = None } }
    {
        if size == 0 {
            return;
        }
        while self.take_within(ns, start, start + (size - 1)) {}
    }

    // Takes a point of the namespace at the times from `low` up to and with `high` out, and says whether there was one.
    fn take_within(&mut self, ns: u8, low: u64, high: u64) -> bool
        requires { self.old.room ≡ None }
        ensures taken { IsTrue result → TakesOne self.old self.new (IsKeyWithin ns low high) }
        ensures none { result ≡ false → (self.new ≡ self.old) × HasNone self.old.points (IsKeyWithin ns low high) }
    {
        match self.buffer.take_within(ns, low, high) {
            Some(taken) => {
                forget(&self.buffer, &mut self.index, taken.gone);
                true
            }
            None => false,
        }
    }

    /// Takes the points of the namespace with `start <= t < start + size` out, and answers them as `block` does.
    ///
    /// # Errors
    ///
    /// Want of memory changes nothing.
    pub fn take_block(&mut self, ns: u8, start: u64, size: u64) -> Result<Seq<Series>, Memory>
        requires room { self.old.room ≡ None }
        requires end { start + size < 2 ^ 64 }
        ensures rows { IfOk result (λ rows. (wanted : List Matcher) → IsRangeOf self.old.points (pick.Match ns wanted) start (start + size) rows) }
        ensures ok { OnOk result (self.new ≡ record { points = without self.old.points (is_in_block ns start size); room = None }) }
        ensures err { OnErr result (self.new ≡ self.old) }
    {
        let rows = self.block(ns, start, size)?;
        self.drop_block(ns, start, size);
        Ok(rows)
    }

    /// Takes each point of the series of the namespace out whose value isn't above the one that is given for its time. Each point
    /// that is given costs constant expected time; each that goes costs as in `expire`.
    ///
    /// # Errors
    ///
    /// Want of memory leaves the first ones of them settled.
    pub fn settle(&mut self, ns: u8, series: &Series) -> Result<(), Memory>
        requires { self.old.room ≡ None }
        ensures room { self.new.room ≡ None }
        ensures ok { OnOk result (self.new.points ≡ settled_with self.old.points (points_of_series ns series.now)) }
        ensures err { OnErr result (IsSettledInPart self.old.points (points_of_series ns series.now) self.new.points) }
    {
        for (t, v) in series.points.as_slice() {
            self.settle_one(ns, &series.id, *t, *v)?;
        }
        Ok(())
    }

    /// Takes the point of the series at this time out, if its value isn't above this one. Takes no memory; finds the series in
    /// constant expected time, and costs beside that as one point in `settle`.
    pub fn settle_at(&mut self, series: &SeriesKey, t: u64, v: i64)
        requires { self.old.room ≡ None }
        ensures { self.new ≡ record { points = settled_at self.old.points (record { ns = series.now.ns; id = series.now.id; t = t; v = v }); room = None } }
    {
        if let Some(taken) = self.buffer.settle_at(series, t, v) {
            forget(&self.buffer, &mut self.index, taken.gone);
        }
    }

    /// Joins a point at a key at which one stands, of which the higher value stays. Takes no memory; finds the series in constant
    /// expected time, and its time in the logarithm of its times.
    pub fn raise(&mut self, series: &SeriesKey, t: u64, v: i64)
        requires room { self.old.room ≡ None }
        requires stands { IsSome (finite.get self.old.points (key_at series.now t)) }
        ensures { self.new ≡ record { points = raised_at self.old.points (key_at series.now t) v; room = None } }
    {
        self.buffer.raise(series, t, v);
    }

    /// The time and the value of the first point of the series from this time on, as `Buffer::first_from` finds it. Takes no memory.
    pub fn first_from(&self, series: &SeriesKey, low: u64) -> Option<(u64, i64)>
        ensures none { result ≡ None → HasNoneFrom self.now.points series.now low }
        ensures some { IfSome result (λ x. IsFirstOf self.now.points series.now low x.0 x.1) }
    {
        self.buffer.first_from(series, low)
    }

    /// The first point of the series that come after this one, in the order of keys, as `Buffer::first_above` finds it: its series, its
    /// time and its value. Takes no memory.
    pub fn first_above(&self, series: &SeriesKey) -> Option<(&SeriesKey, u64, i64)>
        ensures none { result ≡ None → HasNoneAbove self.now.points series.now }
        ensures some { IfSome result (λ x. IsFirstAbove self.now.points series.now x.0.now x.1 x.2) }
    {
        self.buffer.first_above(series)
    }

    // Takes the point of the series at this time out, if its value isn't above this one.
    fn settle_one(&mut self, ns: u8, id: &Text, t: u64, v: i64) -> Result<(), Memory>
        requires { self.old.room ≡ None }
        ensures ok { OnOk result (self.new ≡ record { points = settled_at self.old.points (record { ns = ns; id = id.now; t = t; v = v }); room = None }) }
        ensures err { OnErr result (self.new ≡ self.old) }
    {
        match self.buffer.take_settled(ns, id, t, v)? {
            Some(taken) => {
                forget(&self.buffer, &mut self.index, taken.gone);
                Ok(())
            }
            None => Ok(()),
        }
    }
}

/// The points joined, in memory: of several of one key the higher value. Each costs logarithmic time.
///
/// # Errors
///
/// Want of memory, always where they have more than `MOST_REPLICA_POINTS` keys.
pub fn hold(alloc: Global, points: &[Point]) -> Result<HeldPoints, Memory>
    ensures { IfOk result (λ held. held ≡ record { points = content_of points.now; room = None }) }
{
    let mut held = HeldPoints::new(alloc);
    for point in points {
        held.room(point)?;
        held.put(point);
    }
    Ok(held)
}
