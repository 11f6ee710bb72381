ghost use Rattle.std.specs.Prelude.{◌≡◌, ◌+◌, ◌-◌, ◌^◌, ◌<◌, List, min, Some, None, true, is_some, IsTrue, IfOk, IfSome, IsSome, OnOk, OnErr, MatchOption};
ghost use Rattle.std.specs.FinMap as finite;
ghost use Rattle.std.specs.List.{All};
ghost use Rattle.m3_model.specs.declared.point.Matcher.{Matcher};
ghost use Rattle.m3_model.specs.declared.point.Pick.TheVariants as pick;
ghost use Rattle.m3_model.specs.Contents.{raised, raised_at, is_higher, key_of};
ghost use Rattle.series_slots.specs.SeriesKeys.{key_at};
ghost use Rattle.series_slots.specs.Ranges.{IsRangeOf};
ghost use Rattle.block_buffer.specs.Blocks.{IsBlocksOf, IsClosedBlocksOf};
ghost use Rattle.series_slots.specs.Above.{HasNoneAbove, IsFirstAbove};
ghost use Rattle.block_buffer.specs.FirstOf.{HasNoneFrom, IsFirstOf};
ghost use Rattle.block_buffer.specs.Spots.{IsKeyWithin};
ghost use Rattle.block_buffer.specs.Held.{without, has_expired, is_in_block};
ghost use Rattle.block_buffer.specs.Joins.{joined, points_of_series, IsJoinedInPart};
ghost use Rattle.block_buffer.specs.Taken.{HasSeries, HasId, HasNone, IsTaken, settled_at, settled_with, IsSettledInPart};

use crate::all_series::AllSeries;
use crate::blocks::{block_starts, closed_starts, listed};
use crate::room::Room;
use crate::stand::Stand;
use crate::taken::Taken;
use m3_model::{Duplicate, Memory, Pick, Point, Rules, Seq, Series, Text};
use series_slots::SeriesKey;
use std::alloc::Global;
use std::marker::Model;

/// The points of one replica in memory. Contracts see it as its content, and beside that the key for which there is
/// room: at it the next `put` takes no memory.
///
/// The times of a series stand in a list, by which a point that comes after them all is found in constant time, and any other in
/// their logarithm. One that comes or goes within them moves those on its shorter side by a position, beside the costs that the
/// functions state.
///
/// For each namespace a time is kept for each group of sixteen series, before which none of them has a point. What looks for points up
/// to a time looks at the groups whose time isn't later, each of which it finds in the square of the logarithm of the groups.
///
/// See M3DB's page "Storage Engine", of the buffer.
#[derive(Drop)]
pub struct Buffer {
    alloc: Global,
    all: AllSeries,
    // The series that was sought last. Where there is room, it is the one for which.
    sought: SeriesKey,
    room: Option<Room>,
    // The position of the series that a point left last, where the search for the next one to leave begins.
    hand: usize,
}

impl Model for Buffer {
    ghost use Rattle.series_slots.specs.Points.{points_of};
    ghost use Rattle.series_slots.specs.SeriesEntries.{slots_of};
    ghost use Rattle.block_buffer.specs.Room.{room_key, RoomStands, OnlyRoomIsEmpty};
    ghost use Rattle.block_buffer.specs.Held.{InMemory, held_code};

    ghost Value = { InMemory };

    ghost coded = { held_code };

    ghost view = { λ b. record { points = points_of (slots_of b.all); room = room_key b.sought b.room } };

    ghost invariant = { λ b. RoomStands b.room b.sought b.all × OnlyRoomIsEmpty (room_key b.sought b.room) b.all };
}

impl Buffer {
    /// The buffer without points and without room. Takes no memory.
    pub fn new(alloc: Global) -> Buffer
        ensures { result ≡ record { points = finite.empty; room = None } }
    {
        Buffer {
            alloc,
            all: AllSeries::new(alloc),
            sought: SeriesKey::new(alloc),
            room: None,
            hand: 0,
        }
    }

    /// Takes the memory that a `put` of this point needs, and gives up the room for any other. Says whether a point stands at
    /// its key already, and whether its series is known to have one. Finds the series in constant expected time, and its time in the logarithm of its times.
    ///
    /// # Errors
    ///
    /// Want of memory leaves the points as they were, and no room.
    pub fn room(&mut self, p: &Point) -> Result<Stand, Memory>
        ensures ok { OnOk result (self.new ≡ record { points = self.old.points; room = Some (key_of p.now) }) }
        ensures stands { IfOk result (λ stand. stand.valued ≡ is_some (finite.get self.old.points (key_of p.now))) }
        ensures known { IfOk result (λ stand. IsTrue stand.known → HasId self.old.points p.now.id) }
        ensures err { OnErr result (self.new ≡ record { points = self.old.points; room = None }) }
    {
        self.release();
        self.sought.set(self.alloc, p.ns, &p.id)?;
        let found = self.all.hold(self.alloc, &self.sought, p.t)?;
        self.room = Some(Room {
            position: found.position,
            t: p.t,
        });
        Ok(Stand {
            valued: found.valued,
            known: found.known,
        })
    }

    /// Joins the point, of which the higher value stays at its key, and uses up the room for it. Says whether that
    /// changed the points: the key was absent, or its value rises. Takes no memory, and the logarithm of the series' times: the
    /// series isn't sought again.
    pub fn put(&mut self, p: &Point) -> bool
        requires { self.old.room ≡ Some (key_of p.now) }
        ensures joined { self.new ≡ record { points = raised self.old.points p.now; room = None } }
        ensures changed { result ≡ is_higher (finite.get self.old.points (key_of p.now)) p.now.v }
    {
        match self.room.take() {
            Some(room) => self.all.raise(room.position, room.t, p.v),
            None => false,
        }
    }

    /// Joins the points of a series of the namespace, of which the higher value stays at each key, and gives up the
    /// room. Each point costs constant expected time and the logarithm of the series' times.
    ///
    /// # Errors
    ///
    /// Want of memory leaves the first ones of them joined.
    pub fn join(&mut self, ns: u8, series: &Series) -> Result<(), Memory>
        ensures ok { OnOk result (self.new ≡ record { points = joined self.old.points (points_of_series ns series.now); room = None }) }
        ensures err { OnErr result (IsJoinedInPart self.old.points (points_of_series ns series.now) self.new.points) }
        ensures room { self.new.room ≡ None }
    {
        self.release();
        let key = SeriesKey {
            ns,
            id: series.id.copy(self.alloc)?,
        };
        for (t, v) in series.points.as_slice() {
            self.add(&key, *t, *v)?;
        }
        Ok(())
    }

    // Joins a point of the series.
    fn add(&mut self, series: &SeriesKey, t: u64, v: i64) -> Result<(), Memory>
        requires { self.old.room ≡ None }
        ensures ok { OnOk result (self.new ≡ record { points = raised_at self.old.points (key_at series.now t) v; room = None }) }
        ensures err { OnErr result (self.new ≡ self.old) }
    {
        let found = self.all.hold(self.alloc, series, t)?;
        self.all.raise(found.position, t, v);
        Ok(())
    }

    /// The points with `from <= t < to` of the series that the pick names: of the one identifier, or of each
    /// identifier of the namespace. Identifiers ascend strictly by bytes, times ascend strictly, and no series is
    /// empty. The matchers of a pick don't count: who has some filters the series.
    ///
    /// One series costs constant expected time and the logarithm of its times, and a namespace its proportion to the series of the
    /// groups of which one may have a time before `to`; each beside its answer, which of a namespace is put in order.
    pub fn range(
        &self,
        alloc: Global,
        pick: &Pick,
        from: u64,
        to: u64,
    ) -> Result<Seq<Series>, Memory>
        ensures { IfOk result (IsRangeOf self.now.points pick.now from to) }
    {
        match pick {
            Pick::One { ns, id } => self.all.range_of(alloc, *ns, id, from, to),
            Pick::Match { ns, .. } => self.all.range_of_space(alloc, *ns, from, to),
        }
    }

    /// The points of the namespace with `start <= t < start + size`, as the rows of a volume: identifiers ascend strictly by
    /// bytes, times ascend strictly, and no series is empty. Costs as `range` of a namespace.
    ///
    /// The end of the block is below 2^64, as that of each block of rules within their limits.
    pub fn block(&self, alloc: Global, ns: u8, start: u64, size: u64) -> Result<Seq<Series>, Memory>
        requires { start + size < 2 ^ 64 }
        ensures { IfOk result (λ rows. (wanted : List Matcher) → IsRangeOf self.now.points (pick.Match ns wanted) start (start + size) rows) }
    {
        self.all.range_of_space(alloc, ns, start, start + size)
    }

    /// The namespace and the start of each block of the rules that has a point, ascending. Costs in proportion to the series, and for
    /// each block of each of them the logarithm of its times and of the blocks.
    ///
    /// Block sizes are at least 1, as in all rules within their limits.
    pub fn blocks(&self, alloc: Global, rules: &Rules) -> Result<Seq<(u8, u64)>, Memory>
        requires { All (λ space. 0 < space.block) rules.now.spaces }
        ensures { IfOk result (IsBlocksOf rules.entry.now self.now.points) }
    {
        let starts = block_starts(alloc, &self.all, rules)?;
        let blocks = listed(alloc, &starts)?;
        Ok(Seq::from_vec(blocks))
    }

    /// The namespace and the start of each block of the rules that has a point and of which no write is taken any more, ascending.
    /// Costs as `blocks`, but of the series alone that stand in a group of which one may have a time in such a block.
    ///
    /// Block sizes are at least 1, as in all rules within their limits.
    pub fn closed_blocks(&self, alloc: Global, rules: &Rules) -> Result<Seq<(u8, u64)>, Memory>
        requires { All (λ space. 0 < space.block) rules.now.spaces }
        ensures { IfOk result (IsClosedBlocksOf rules.entry.now self.now.points) }
    {
        let starts = closed_starts(alloc, &self.all, rules)?;
        let blocks = listed(alloc, &starts)?;
        Ok(Seq::from_vec(blocks))
    }

    /// Takes a point of the namespace at the times from `low` up to and with `high` out, and gives up the room. Takes no memory. Looks
    /// at one group of series of which one may have a time up to `high` after the other, from that on which a point left last, and finds
    /// the first point of a series in the logarithm of its times: to take all such points out costs in proportion to the series of these
    /// groups, and for each point that logarithm.
    pub fn take_within(&mut self, ns: u8, low: u64, high: u64) -> Option<Taken>
        ensures room { self.new.room ≡ None }
        ensures same { result ≡ None → self.new.points ≡ self.old.points }
        ensures none { result ≡ None → HasNone self.old.points (IsKeyWithin ns low high) }
        ensures taken { IfSome result (IsTaken self.old.points self.new.points (IsKeyWithin ns low high)) }
    {
        self.release();
        let spot = self.all.any_within(self.hand, ns, low, high)?;
        self.hand = spot.position;
        Some(self.all.take_spot(spot))
    }

    /// Takes an expired point out, and gives up the room. Takes no memory, and costs as `take_within` for each namespace that had a point.
    pub fn take_expired(&mut self, rules: &Rules) -> Option<Taken>
        ensures room { self.new.room ≡ None }
        ensures same { result ≡ None → self.new.points ≡ self.old.points }
        ensures none { result ≡ None → HasNone self.old.points (λ k. has_expired rules.entry.now k ≡ true) }
        ensures taken { IfSome result (IsTaken self.old.points self.new.points (λ k. has_expired rules.entry.now k ≡ true)) }
    {
        self.release();
        let spot = self.all.any_expired(self.hand, rules)?;
        self.hand = spot.position;
        Some(self.all.take_spot(spot))
    }

    /// Takes the expired points out, and gives up the room. Answers how many points went, up to the greatest number.
    /// Takes no memory; costs in proportion to the series of the groups of which one may have an expired point, and for each point that
    /// goes the logarithm of its series' times.
    pub fn expire(&mut self, rules: &Rules) -> u64
        ensures taken { self.new ≡ record { points = without self.old.points (has_expired rules.entry.now); room = None } }
        ensures counted { result ≡ min (finite.len self.old.points - finite.len self.new.points) (2 ^ 64 - 1) }
    {
        let mut count: u64 = 0;
        while let Some(taken) = self.take_expired(rules) {
            drop(taken);
            count = count.saturating_add(1);
        }
        count
    }

    /// Takes the points of the namespace with `start <= t < start + size` out, and gives up the room. Takes no memory;
    /// costs as `expire`.
    ///
    /// The end of the block is below 2^64, as that of each block of rules within their limits.
    pub fn drop_block(&mut self, ns: u8, start: u64, size: u64)
        requires { start + size < 2 ^ 64 }
        ensures { self.new ≡ record { points = without self.old.points (is_in_block ns start size); room = None } }
    {
        self.release();
        if size == 0 {
            return;
        }
        while let Some(taken) = self.take_within(ns, start, start + (size - 1)) {
            drop(taken);
        }
    }

    /// Takes the points of the namespace with `start <= t < start + size` out, gives up the room, and answers them as `block`
    /// does.
    ///
    /// # Errors
    ///
    /// Want of memory changes nothing but the room, which is given up.
    pub fn take_block(
        &mut self,
        alloc: Global,
        ns: u8,
        start: u64,
        size: u64,
    ) -> Result<Seq<Series>, Memory>
        requires { start + size < 2 ^ 64 }
        ensures rows { IfOk result (λ rows. (wanted : List Matcher) → IsRangeOf self.old.points (pick.Match ns wanted) start (start + size) rows) }
        ensures ok { OnOk result (self.new ≡ record { points = without self.old.points (is_in_block ns start size); room = None }) }
        ensures err { OnErr result (self.new ≡ record { points = self.old.points; room = None }) }
    {
        self.release();
        let rows = self.block(alloc, ns, start, size)?;
        self.drop_block(ns, start, size);
        Ok(rows)
    }

    /// Takes the point of the series of the namespace at this time out, if its value isn't above this one, and gives up the
    /// room. Finds the series in constant expected time; its time in the logarithm of its times.
    ///
    /// # Errors
    ///
    /// Want of memory changes nothing but the room, which is given up.
    pub fn take_settled(
        &mut self,
        ns: u8,
        id: &Text,
        t: u64,
        v: i64,
    ) -> Result<Option<Taken>, Memory>
        ensures room { self.new.room ≡ None }
        ensures settled { OnOk result (self.new.points ≡ settled_at self.old.points (record { ns = ns; id = id.now; t = t; v = v })) }
        ensures taken { IfOk result (λ found. IfSome found (IsTaken self.old.points self.new.points (λ k. k ≡ record { ns = ns; id = id.now; t = t }))) }
        ensures none { IfOk result (λ found. found ≡ None → self.new.points ≡ self.old.points) }
        ensures err { OnErr result (self.new.points ≡ self.old.points) }
    {
        self.release();
        self.sought.set(self.alloc, ns, id)?;
        match self.all.position_of(&self.sought) {
            Some(position) => Ok(self.all.take_settled(position, t, v)),
            None => Ok(None),
        }
    }

    /// The same of a series that is given by its key. Takes no memory.
    pub fn settle_at(&mut self, series: &SeriesKey, t: u64, v: i64) -> Option<Taken>
        ensures room { self.new.room ≡ None }
        ensures settled { self.new.points ≡ settled_at self.old.points (record { ns = series.now.ns; id = series.now.id; t = t; v = v }) }
        ensures taken { IfSome result (IsTaken self.old.points self.new.points (λ k. k ≡ key_at series.now t)) }
        ensures none { result ≡ None → self.new.points ≡ self.old.points }
    {
        self.release();
        let position = self.all.position_of(series)?;
        self.all.take_settled(position, t, v)
    }

    /// Joins a point at a key at which one stands, of which the higher value stays, and gives up the room. Finds the series in
    /// constant expected time; its time in the logarithm of its times. Takes no memory.
    pub fn raise(&mut self, series: &SeriesKey, t: u64, v: i64)
        requires { IsSome (finite.get self.old.points (key_at series.now t)) }
        ensures { self.new ≡ record { points = raised_at self.old.points (key_at series.now t) v; room = None } }
    {
        self.release();
        match self.all.position_of(series) {
            Some(position) => match self.all.slot(position, t) {
                Some(_) => {
                    self.all.raise(position, t, v);
                }
                None => {}
            },
            None => {}
        }
    }

    /// The time and the value of the first point of the series from this time on. Finds the series in constant expected time, and
    /// the point in the logarithm of its times. Takes no memory.
    pub fn first_from(&self, series: &SeriesKey, low: u64) -> Option<(u64, i64)>
        ensures none { result ≡ None → HasNoneFrom self.now.points series.now low }
        ensures some { IfSome result (λ x. IsFirstOf self.now.points series.now low x.0 x.1) }
    {
        let position = self.all.position_of(series)?;
        let spot = self.all.first_at(position, series.ns, low)?;
        Some((spot.t, spot.v))
    }

    /// The first point of the series that come after this one, in the order of keys: its series, its time and its value. Costs the
    /// logarithm of the series and of the times of the one that is found. Takes no memory.
    pub fn first_above(&self, series: &SeriesKey) -> Option<(&SeriesKey, u64, i64)>
        ensures none { result ≡ None → HasNoneAbove self.now.points series.now }
        ensures some { IfSome result (λ x. IsFirstAbove self.now.points series.now x.0.now x.1 x.2) }
    {
        self.all.first_above(series)
    }

    /// Takes each point of the series of the namespace out whose value isn't above the one that is given for its time, and gives
    /// up the room. Each point that is given costs constant expected time and the logarithm of the series' times.
    ///
    /// # Errors
    ///
    /// Want of memory leaves the first ones of them settled.
    pub fn settle(&mut self, ns: u8, series: &Series) -> Result<(), Memory>
        ensures room { self.new.room ≡ None }
        ensures ok { OnOk result (self.new.points ≡ settled_with self.old.points (points_of_series ns series.now)) }
        ensures err { OnErr result (IsSettledInPart self.old.points (points_of_series ns series.now) self.new.points) }
    {
        self.release();
        for (t, v) in series.points.as_slice() {
            self.settle_one(ns, &series.id, *t, *v)?;
        }
        Ok(())
    }

    // Takes the point of the series at this time out, if its value isn't above this one.
    fn settle_one(&mut self, ns: u8, id: &Text, t: u64, v: i64) -> Result<(), Memory>
        ensures ok { OnOk result (self.new ≡ record { points = settled_at self.old.points (record { ns = ns; id = id.now; t = t; v = v }); room = None }) }
        ensures err { OnErr result (self.new ≡ record { points = self.old.points; room = None }) }
    {
        drop(self.take_settled(ns, id, t, v)?);
        Ok(())
    }

    /// The identifier of the series, if no point with it stands, in whatever namespace. Takes constant expected time for each
    /// namespace that had a point.
    pub fn unheld(&self, mut series: SeriesKey) -> Option<Text>
        requires { self.now.room ≡ None }
        ensures { MatchOption result (HasId self.now.points series.id) (λ id. (id ≡ series.id) × (HasId self.now.points series.id → ⊥)) }
    {
        for space in 0..self.all.spaces() {
            series.ns = space as u8;
            if self.all.has(&series) {
                return None;
            }
        }
        Some(series.id)
    }

    /// Gives up the room. Takes no memory.
    pub fn release(&mut self)
        ensures { self.new ≡ record { points = self.old.points; room = None } }
    {
        if let Some(room) = self.room.take() {
            self.all.vacate(room.position, room.t);
        }
    }
}
