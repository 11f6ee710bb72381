ghost use Rattle.std.specs.Prelude.{◌≡◌, ◌⊎◌, ◌+◌, ◌^◌, ◌<◌, ◌≤◌, List, Some, None, true, IsTrue, IsSome, IfOk, IfSome, OnOk, OnErr, MatchOption};
ghost use Rattle.std.specs.List.{All};
ghost use Rattle.std.specs.FinMap as finite;
ghost use Rattle.m3_model.specs.Contents.{raised, raised_at, key_of};
ghost use Rattle.series_slots.specs.SeriesKeys.{key_at};
ghost use Rattle.series_slots.specs.Above.{HasNoneAbove, IsFirstAbove};
ghost use Rattle.block_buffer.specs.FirstOf.{HasNoneFrom, IsFirstOf};
ghost use Rattle.m3_model.specs.declared.limits.TheConstants.{MOST_REPLICA_POINTS};
ghost use Rattle.m3_model.specs.declared.point.Matcher.{Matcher};
ghost use Rattle.m3_model.specs.declared.point.Pick.TheVariants as pick;
ghost use Rattle.series_slots.specs.Ranges.{IsRangeOf};
ghost use Rattle.block_buffer.specs.Blocks.{IsClosedBlocksOf};
ghost use Rattle.block_buffer.specs.Spots.{IsKeyWithin};
ghost use Rattle.block_buffer.specs.Held.{has_expired};
ghost use Rattle.block_buffer.specs.Taken.{HasId, HasNone, IsTaken, settled_at};

use block_buffer::{Buffer, Taken};
use m3_model::limits::MOST_REPLICA_POINTS;
use m3_model::{Memory, Pick, Point, Rules, Seq, Series, Text};
use series_slots::SeriesKey;
use std::alloc::Global;
use std::marker::Model;

// The points of one replica in memory, which are counted: never more than `MOST_REPLICA_POINTS`. Contracts see it as its
// buffer.
#[derive(Drop)]
pub(crate) struct CountedBuffer {
    buffer: Buffer,
    count: u64,
    // Whether the point for which there is room stands at a key that has none yet.
    adds: bool,
}

impl Model for CountedBuffer {
    ghost use Rattle.block_buffer.specs.Spots.{IsKeyWithin};
    ghost use Rattle.block_buffer.specs.Held.{InMemory, held_code};
    ghost use Rattle.held_points.specs.Counted.{IsCounted};

    ghost Value = { InMemory };

    ghost coded = { held_code };

    ghost view = { λ b. b.buffer };

    ghost invariant = { λ b. IsCounted b.count b.adds b.buffer };
}

impl CountedBuffer {
    pub(crate) fn new(alloc: Global) -> CountedBuffer
        ensures { result ≡ record { points = finite.empty; room = None } }
    {
        CountedBuffer {
            buffer: Buffer::new(alloc),
            count: 0,
            adds: false,
        }
    }

    // Takes the memory that a `put` of this point needs. Where a replica may hold no more points and none stands at the
    // key, memory is said to be wanted. An error leaves the points as they were. What is answered is true only of an
    // identifier that has a point.
    pub(crate) fn room(&mut self, point: &Point) -> Result<bool, Memory>
        requires { self.old.room ≡ None }
        ensures ok { OnOk result (self.new ≡ record { points = self.old.points; room = Some (key_of point.now) }) }
        ensures err { OnErr result (self.new ≡ record { points = self.old.points; room = None }) }
        ensures fits { OnOk result (IsSome (finite.get self.old.points (key_of point.now)) ⊎ (finite.len self.old.points < MOST_REPLICA_POINTS)) }
        ensures known { IfOk result (λ known. IsTrue known → HasId self.old.points point.now.id) }
    {
        let stand = self.buffer.room(point)?;
        if !stand.valued && self.count >= MOST_REPLICA_POINTS {
            self.buffer.release();
            return Err(Memory);
        }
        self.adds = !stand.valued;
        Ok(stand.known)
    }

    // Joins the point, for which there is room.
    pub(crate) fn put(&mut self, point: &Point)
        requires { self.old.room ≡ Some (key_of point.now) }
        ensures { self.new ≡ record { points = raised self.old.points point.now; room = None } }
    {
        if self.adds {
            self.count += 1;
        }
        self.buffer.put(point);
    }

    // Gives up the room.
    pub(crate) fn release(&mut self)
        ensures { self.new ≡ record { points = self.old.points; room = None } }
    {
        self.buffer.release();
    }

    // The points with `from <= t < to` of the series that the pick names, as `Buffer::range` finds them.
    pub(crate) fn range(
        &self,
        alloc: Global,
        pick: &Pick,
        from: u64,
        to: u64,
    ) -> Result<Seq<Series>, Memory>
        ensures { IfOk result (IsRangeOf self.now.points pick.now from to) }
    {
        self.buffer.range(alloc, pick, from, to)
    }

    // How many points there are.
    pub(crate) fn len(&self) -> u64
        ensures counted { result ≡ finite.len self.now.points }
        ensures limit { result ≤ MOST_REPLICA_POINTS }
    {
        self.count
    }

    // Takes a point of the namespace at the times from `low` up to and with `high` out, and gives up the room.
    pub(crate) fn take_within(&mut self, ns: u8, low: u64, high: u64) -> Option<Taken>
        ensures room { self.new.room ≡ None }
        ensures same { result ≡ None → self.new.points ≡ self.old.points }
        ensures none { result ≡ None → HasNone self.old.points (IsKeyWithin ns low high) }
        ensures taken { IfSome result (IsTaken self.old.points self.new.points (IsKeyWithin ns low high)) }
    {
        let taken = self.buffer.take_within(ns, low, high)?;
        self.count -= 1;
        Some(taken)
    }

    // Takes an expired point out, and gives up the room.
    pub(crate) fn take_expired(&mut self, rules: &Rules) -> Option<Taken>
        ensures room { self.new.room ≡ None }
        ensures same { result ≡ None → self.new.points ≡ self.old.points }
        ensures none { result ≡ None → HasNone self.old.points (λ k. has_expired rules.entry.now k ≡ true) }
        ensures taken { IfSome result (IsTaken self.old.points self.new.points (λ k. has_expired rules.entry.now k ≡ true)) }
    {
        let taken = self.buffer.take_expired(rules)?;
        self.count -= 1;
        Some(taken)
    }

    // Takes the point of the series at this time out, if its value isn't above this one, and gives up the room. Want of memory
    // changes no point.
    pub(crate) fn take_settled(
        &mut self,
        ns: u8,
        id: &Text,
        t: u64,
        v: i64,
    ) -> Result<Option<Taken>, Memory>
        ensures room { self.new.room ≡ None }
        ensures settled { OnOk result (self.new.points ≡ settled_at self.old.points (record { ns = ns; id = id.now; t = t; v = v })) }
        ensures taken { IfOk result (λ found. IfSome found (IsTaken self.old.points self.new.points (λ k. k ≡ record { ns = ns; id = id.now; t = t }))) }
        ensures none { IfOk result (λ found. found ≡ None → self.new.points ≡ self.old.points) }
        ensures err { OnErr result (self.new.points ≡ self.old.points) }
    {
        let found = self.buffer.take_settled(ns, id, t, v)?;
        if found.is_some() {
            self.count -= 1;
        }
        Ok(found)
    }

    // The same of a series that is given by its key. Takes no memory.
    pub(crate) fn settle_at(&mut self, series: &SeriesKey, t: u64, v: i64) -> Option<Taken>
        ensures room { self.new.room ≡ None }
        ensures settled { self.new.points ≡ settled_at self.old.points (record { ns = series.now.ns; id = series.now.id; t = t; v = v }) }
        ensures taken { IfSome result (IsTaken self.old.points self.new.points (λ k. k ≡ key_at series.now t)) }
        ensures none { result ≡ None → self.new.points ≡ self.old.points }
    {
        let taken = self.buffer.settle_at(series, t, v)?;
        self.count -= 1;
        Some(taken)
    }

    // Joins a point at a key at which one stands, and gives up the room.
    pub(crate) fn raise(&mut self, series: &SeriesKey, t: u64, v: i64)
        requires { IsSome (finite.get self.old.points (key_at series.now t)) }
        ensures { self.new ≡ record { points = raised_at self.old.points (key_at series.now t) v; room = None } }
    {
        self.buffer.raise(series, t, v);
    }

    // The time and the value of the first point of the series from this time on.
    pub(crate) fn first_from(&self, series: &SeriesKey, low: u64) -> Option<(u64, i64)>
        ensures none { result ≡ None → HasNoneFrom self.now.points series.now low }
        ensures some { IfSome result (λ x. IsFirstOf self.now.points series.now low x.0 x.1) }
    {
        self.buffer.first_from(series, low)
    }

    // The first point of the series that come after this one, as `Buffer::first_above` finds it.
    pub(crate) fn first_above(&self, series: &SeriesKey) -> Option<(&SeriesKey, u64, i64)>
        ensures none { result ≡ None → HasNoneAbove self.now.points series.now }
        ensures some { IfSome result (λ x. IsFirstAbove self.now.points series.now x.0.now x.1 x.2) }
    {
        self.buffer.first_above(series)
    }

    // The points of a block, as `Buffer::block` finds them.
    pub(crate) fn block(
        &self,
        alloc: Global,
        ns: u8,
        start: u64,
        size: u64,
    ) -> Result<Seq<Series>, Memory>
        requires { start + size < 2 ^ 64 }
        ensures { IfOk result (λ rows. (wanted : List Matcher) → IsRangeOf self.now.points (pick.Match ns wanted) start (start + size) rows) }
    {
        self.buffer.block(alloc, ns, start, size)
    }

    // The namespaces and starts of the blocks of the rules that have points and of which no write is taken any more, as
    // `Buffer::closed_blocks` finds them.
    pub(crate) fn closed_blocks(
        &self,
        alloc: Global,
        rules: &Rules,
    ) -> Result<Seq<(u8, u64)>, Memory>
        requires { All (λ space. 0 < space.block) rules.now.spaces }
        ensures { IfOk result (IsClosedBlocksOf rules.entry.now self.now.points) }
    {
        self.buffer.closed_blocks(alloc, rules)
    }

    // The identifier of the series, if no point with it stands.
    pub(crate) fn unheld(&self, series: SeriesKey) -> Option<Text>
        requires { self.now.room ≡ None }
        ensures { MatchOption result (HasId self.now.points series.id) (λ id. (id ≡ series.id) × (HasId self.now.points series.id → ⊥)) }
    {
        self.buffer.unheld(series)
    }
}
