ghost use Rattle.std.specs.Prelude.{◌≡◌, ◌≢◌, ◌⊎◌, ℕ, List, length, min, take, ◌+◌, ◌*◌, ◌-◌, ◌<◌, ◌≤◌, ◌^◌, [], Some, None, true, false, IsTrue, IsSome, slice_get, is_some, IfOk, IfSome, OnOk, OnErr, MatchOption};
ghost use Rattle.std.specs.FinMap as finite;
ghost use Rattle.m3_model.specs.declared.point.Key.{Key};
ghost use Rattle.m3_model.specs.declared.point.Matcher.{Matcher};
ghost use Rattle.m3_model.specs.declared.point.Pick.TheVariants as pick;
ghost use Rattle.m3_model.specs.Contents.{higher, is_higher};
ghost use Rattle.series_slots.specs.declared.series_key.SeriesKey.{SeriesKey};
ghost use Rattle.series_slots.specs.SeriesKeys.{key_at};
ghost use Rattle.series_slots.specs.Slots.{Slots, settled};
ghost use Rattle.series_slots.specs.Points.{slot_at, value_of, points_of};
ghost use Rattle.series_slots.specs.SeriesEntries.{IsAt, StandsAt, slots_of};
ghost use Rattle.series_slots.specs.Ranges.{IsRangeOf, series_in};
ghost use Rattle.std.specs.List.{flat_map};
ghost use Rattle.block_buffer.specs.Taken.{is_settled};
ghost use Rattle.series_slots.specs.Firsts.{HasNoneLater, IsFirstAt};
ghost use Rattle.series_slots.specs.Above.{HasNoneAbove, IsFirstAbove};
ghost use Rattle.block_buffer.specs.Held.{has_expired};
ghost use Rattle.block_buffer.specs.AllSeries.{IsTakenAt, is_bare, IsSlotSet, AreSameSlots, HasNoSlots, HasSlots};
ghost use Rattle.block_buffer.specs.Spots.{group_of, IsKeyWithin, IsValueOf, HasNoValueOf, HasNoneAt, IsClear, IsLate};
ghost use Rattle.block_buffer.specs.Bounds.{bound_at, HasGroup};

use crate::bounds::{higher_of, lesser};
use crate::first_times::FirstTimes;
use crate::spot::Spot;
use crate::taken::Taken;
use m3_model::{Duplicate, Memory, Rules, Seq, Series, Text};
use retention::last_expired;
use series_slots::{IndexedSeries, SeriesKey};
use std::alloc::Global;
use std::marker::Model;

// The slots of each series, at its position. A position is that of its series until a series leaves.
#[derive(Drop)]
pub(crate) struct AllSeries {
    placed: IndexedSeries,
    // For each namespace a time at each group of sixteen positions: none of its series there has an earlier slot. The time is lowered
    // where an earlier slot comes, and raised by who looks for values there and finds none up to it, not where a slot leaves: so what
    // leaves takes no memory and costs nothing here, as no entry has to move, and a series that comes needs none of its own.
    firsts: FirstTimes,
    // One above the highest namespace that a series had.
    spaces: usize,
}

impl Model for AllSeries {
    ghost use Rattle.std.specs.Prelude.{◌≤◌};
    ghost use Rattle.series_slots.specs.SeriesEntries.{SeriesEntries, series_entries_code};
    ghost use Rattle.block_buffer.specs.AllSeries.{TimesFit, SpacesBelow, AreNoted};

    ghost Value = { SeriesEntries };

    ghost coded = { series_entries_code };

    ghost view = { λ a. a.placed };

    ghost invariant = { λ a. TimesFit a.placed × SpacesBelow a.spaces a.placed × (a.spaces ≤ 256) × AreNoted a.firsts.spaces.items a.placed };
}

// Where a slot is: the position of its series, whether it has a value, and whether the series had a slot before.
#[derive(Clone, Copy)]
pub(crate) struct Found {
    pub(crate) position: usize,
    pub(crate) valued: bool,
    pub(crate) known: bool,
}

// The value of a slot, if there is a slot and it has one.
fn settled(slot: Option<Option<i64>>) -> Option<i64>
    ensures { result ≡ settled slot }
{
    match slot {
        Some(value) => value,
        None => None,
    }
}

// Whether there is a slot, and it has no value.
fn is_bare(slot: Option<Option<i64>>) -> bool
    ensures { result ≡ is_bare slot }
{
    match slot {
        Some(value) => value.is_none(),
        None => false,
    }
}

// How many positions are a group.
const GROUP: usize = 16;

// The positions of a group, as far as there are series: the first one, and one above the last.
fn positions_of(placed: &IndexedSeries, group: usize) -> (usize, usize)
    ensures first { result.0 ≡ min (group * 16) (2 ^ 64 - 1) }
    ensures end { result.1 ≡ min (group * 16 + 16) (length placed.now) }
    ensures fits { length placed.now < 2 ^ 64 }
{
    let first = group.saturating_mul(GROUP);
    let end = first.saturating_add(GROUP);
    let positions = placed.len();
    (first, if end < positions { end } else { positions })
}

// The time of the first slot of the series at this position, where it is of the namespace and has one; else the last time.
fn first_of(placed: &IndexedSeries, position: usize, ns: u8) -> u64
    requires { (s : SeriesKey) × IsAt placed.now position s }
    ensures { (s : SeriesKey) (slots : Slots) (t : ℕ) → slice_get placed.now position ≡ Some (s, slots) → s.ns ≡ ns → IsSome (finite.get slots t) → result ≤ t }
{
    if placed.space_at(position) != ns {
        return u64::MAX;
    }
    match placed.first_time(position) {
        Some(t) => t,
        None => u64::MAX,
    }
}

// The time of the first slot of the namespace in the group, if there is one; else the last time.
fn first_of_group(placed: &IndexedSeries, group: usize, ns: u8) -> u64
    ensures { (position t : ℕ) (e : SeriesKey × Slots) → group_of position ≡ group → slice_get placed.now position ≡ Some e → e.0.ns ≡ ns → IsSome (finite.get e.1 t) → result ≤ t }
{
    let (first, end) = positions_of(placed, group);
    let mut least = u64::MAX;
    for position in first..end {
        least = lesser(least, first_of(placed, position, ns));
    }
    least
}

// Notes at the group of this position what the series at the last one needs, which takes this position then.
fn note_last(placed: &IndexedSeries, firsts: &mut FirstTimes, position: usize)
    requires { position < length placed.now }
    ensures lower { (n g : ℕ) → bound_at firsts.new.spaces.items n g ≤ bound_at firsts.old.spaces.items n g }
    ensures noted { (t g : ℕ) (e : SeriesKey × Slots) → slice_get placed.now (length placed.now - 1) ≡ Some e → IsSome (finite.get e.1 t) → group_of position ≤ g → HasGroup firsts.old.spaces.items e.0.ns g → bound_at firsts.new.spaces.items e.0.ns (group_of position) ≤ t }
{
    let last = placed.len() - 1;
    match placed.first_time(last) {
        Some(t) => firsts.lower(placed.space_at(last), position / GROUP, t),
        None => {}
    }
}

impl AllSeries {
    pub(crate) fn new(alloc: Global) -> AllSeries
        ensures { result ≡ [] }
    {
        AllSeries {
            placed: IndexedSeries::new(alloc),
            firsts: FirstTimes::new(alloc),
            spaces: 0,
        }
    }

    // The position of the series, if it is there.
    pub(crate) fn position_of(&self, series: &SeriesKey) -> Option<usize>
        ensures there { IfSome result (λ position. IsAt self.now position series.now) }
        ensures absent { result ≡ None → finite.get (slots_of self.now) series.now ≡ None }
    {
        self.placed.position_of(series)
    }

    // The slot of the series at this position and time, if there is one.
    pub(crate) fn slot(&self, position: usize, t: u64) -> Option<Option<i64>>
        requires { (s : SeriesKey) × IsAt self.now position s }
        ensures slot { (s : SeriesKey) → IsAt self.now position s → result ≡ slot_at (slots_of self.now) (key_at s t) }
        ensures stands { (s : SeriesKey) → IsAt self.now position s → IfSome result (λ _. StandsAt self.now position t s) }
        ensures bare { (s : SeriesKey) (slots : Slots) → slice_get self.now position ≡ Some (s, slots) → result ≡ finite.get slots t }
    {
        self.placed.slot_at(position, t)
    }

    // Makes a slot of the series at this time, if there is none. No value changes.
    pub(crate) fn hold(
        &mut self,
        alloc: Global,
        series: &SeriesKey,
        t: u64,
    ) -> Result<Found, Memory>
        ensures ok { OnOk result (IsSlotSet self.old self.new (key_at series.now t) (Some (value_of (slots_of self.old) (key_at series.now t)))) }
        ensures stands { IfOk result (λ found. StandsAt self.new found.position t series.now) }
        ensures valued { IfOk result (λ found. found.valued ≡ is_some (value_of (slots_of self.old) (key_at series.now t))) }
        ensures known { IfOk result (λ found. IsTrue found.known → (q : ℕ) × IsSome (slot_at (slots_of self.old) (key_at series.now q))) }
        ensures err { OnErr result (AreSameSlots self.old self.new) }
    {
        match self.position_of(series) {
            Some(position) => {
                let known = self.has_slots(position);
                let valued = self.hold_at(alloc, position, t)?;
                Ok(Found {
                    position,
                    valued,
                    known,
                })
            }
            None => {
                let position = self.hold_new(alloc, series.copy(alloc)?, t)?;
                Ok(Found {
                    position,
                    valued: false,
                    known: false,
                })
            }
        }
    }

    // Whether the series at this position has a slot, in constant time.
    fn has_slots(&self, position: usize) -> bool
        requires { (s : SeriesKey) × IsAt self.now position s }
        ensures { (s : SeriesKey) → IsAt self.now position s → IsTrue result → (q : ℕ) × IsSome (slot_at (slots_of self.now) (key_at s q)) }
    {
        !self.placed.is_vacant(position)
    }

    // Makes a slot of the series at this position, if there is none. Says whether there is a value.
    fn hold_at(&mut self, alloc: Global, position: usize, t: u64) -> Result<bool, Memory>
        requires { (s : SeriesKey) × IsAt self.old position s }
        ensures ok { (s : SeriesKey) → IsAt self.old position s → OnOk result (IsSlotSet self.old self.new (key_at s t) (Some (value_of (slots_of self.old) (key_at s t)))) }
        ensures stands { (s : SeriesKey) → IsAt self.old position s → OnOk result (StandsAt self.new position t s) }
        ensures valued { (s : SeriesKey) → IsAt self.old position s → IfOk result (λ valued. valued ≡ is_some (value_of (slots_of self.old) (key_at s t))) }
        ensures err { OnErr result (self.new ≡ self.old) }
    {
        match self.slot(position, t) {
            Some(slot) => Ok(slot.is_some()),
            None => {
                self.hold_absent(alloc, position, t)?;
                Ok(false)
            }
        }
    }

    // Makes a slot of the series at this position and time, where there is none.
    fn hold_absent(&mut self, alloc: Global, position: usize, t: u64) -> Result<(), Memory>
        requires { (s : SeriesKey) × (slots : Slots) × (slice_get self.old position ≡ Some (s, slots)) × (finite.get slots t ≡ None) }
        ensures ok { (s : SeriesKey) → IsAt self.old position s → OnOk result (IsSlotSet self.old self.new (key_at s t) (Some None)) }
        ensures stands { (s : SeriesKey) → IsAt self.old position s → OnOk result (StandsAt self.new position t s) }
        ensures err { OnErr result (self.new ≡ self.old) }
    {
        let ns = self.placed.space_at(position);
        self.firsts.room(alloc, ns, position / GROUP)?;
        self.placed.hold(position, t)?;
        self.firsts.lower(ns, position / GROUP, t);
        Ok(())
    }

    // Makes a slot of a series that isn't there. It comes last.
    fn hold_new(&mut self, alloc: Global, series: SeriesKey, t: u64) -> Result<usize, Memory>
        requires { finite.get (slots_of self.old) series ≡ None }
        ensures ok { OnOk result (IsSlotSet self.old self.new (key_at series t) (Some None)) }
        ensures stands { IfOk result (λ position. StandsAt self.new position t series) }
        ensures err { OnErr result (AreSameSlots self.old self.new) }
    {
        let position = self.add(alloc, series)?;
        match self.hold_absent(alloc, position, t) {
            Ok(()) => Ok(position),
            Err(e) => {
                drop(self.leave(position));
                Err(e)
            }
        }
    }

    // Adds a series that isn't there, without slots.
    fn add(&mut self, alloc: Global, series: SeriesKey) -> Result<usize, Memory>
        requires { finite.get (slots_of self.old) series ≡ None }
        ensures at { IfOk result (λ position. slice_get self.new position ≡ Some (series, finite.empty)) }
        ensures kept { AreSameSlots self.old self.new }
    {
        let spaces = series.ns as usize + 1;
        let position = self.placed.add(alloc, series)?;
        self.spaces = higher_of(self.spaces, spaces);
        Ok(position)
    }

    // Puts the value into the slot of the series at this position and time, unless one at least as high stands there. Says
    // whether it was put.
    pub(crate) fn raise(&mut self, position: usize, t: u64, v: i64) -> bool
        requires { (s : SeriesKey) × StandsAt self.old position t s }
        ensures raised { (s : SeriesKey) → StandsAt self.old position t s → IsSlotSet self.old self.new (key_at s t) (Some (Some (higher (value_of (slots_of self.old) (key_at s t)) v))) }
        ensures changed { (s : SeriesKey) → StandsAt self.old position t s → result ≡ is_higher (value_of (slots_of self.old) (key_at s t)) v }
    {
        self.placed.raise(position, t, v)
    }

    // Takes the slot of the series at this position and time out, if it has no value, and then the series if it has no slot.
    pub(crate) fn vacate(&mut self, position: usize, t: u64)
        requires { (s : SeriesKey) × StandsAt self.old position t s }
        ensures kept { (k : Key) → value_of (slots_of self.new) k ≡ value_of (slots_of self.old) k }
        ensures vacated { (s : SeriesKey) → StandsAt self.old position t s → (k : Key) → slot_at (slots_of self.new) k ≡ Some None → (slot_at (slots_of self.old) k ≡ Some None) × (k ≢ key_at s t) }
    {
        if is_bare(self.slot(position, t)) {
            drop(self.take(position, t));
        }
    }

    // Takes the slot of the series at this position and time out, and then the series if it has no slot. Answers the series that
    // left.
    pub(crate) fn take(&mut self, position: usize, t: u64) -> Option<SeriesKey>
        requires { (s : SeriesKey) × StandsAt self.old position t s }
        ensures taken { (s : SeriesKey) → StandsAt self.old position t s → IsSlotSet self.old self.new (key_at s t) None }
        ensures left { (s : SeriesKey) → StandsAt self.old position t s → MatchOption result (HasSlots self.new position s) (λ gone. (gone ≡ s) × HasNoSlots self.new s) }
    {
        self.take_slot(position, t);
        self.leave(position)
    }

    // Takes the value of the series at this position and time out, if it isn't above this one, and then the series if it has no
    // slot.
    pub(crate) fn take_settled(&mut self, position: usize, t: u64, v: i64) -> Option<Taken>
        requires { (s : SeriesKey) × IsAt self.old position s }
        ensures same { result ≡ None → self.new ≡ self.old }
        ensures none { result ≡ None → (s : SeriesKey) → IsAt self.old position s → is_settled (value_of (slots_of self.old) (key_at s t)) v ≡ false }
        ensures taken { IfSome result (λ x. (s : SeriesKey) → IsAt self.old position s → (is_settled (Some x.v) v ≡ true) × IsTakenAt self.old self.new position s t x) }
    {
        let stands = settled(self.slot(position, t))?;
        if v < stands {
            return None;
        }
        let gone = self.take(position, t);
        Some(Taken { t, v: stands, gone })
    }

    // Takes the slot of the series at this position and time out.
    fn take_slot(&mut self, position: usize, t: u64)
        requires { (s : SeriesKey) × IsAt self.old position s }
        ensures taken { (s : SeriesKey) → IsAt self.old position s → IsSlotSet self.old self.new (key_at s t) None }
        ensures there { (s : SeriesKey) → IsAt self.old position s → IsAt self.new position s }
    {
        self.placed.take(position, t);
    }

    // Takes the series at this position out, if it has no slot.
    fn leave(&mut self, position: usize) -> Option<SeriesKey>
        requires { (s : SeriesKey) × IsAt self.old position s }
        ensures kept { AreSameSlots self.old self.new }
        ensures left { (s : SeriesKey) → IsAt self.old position s → MatchOption result (HasSlots self.new position s) (λ gone. (gone ≡ s) × HasNoSlots self.new s) }
    {
        if !self.placed.is_vacant(position) {
            return None;
        }
        note_last(&self.placed, &mut self.firsts, position);
        self.placed.remove(position)
    }

    // The positions of the group, as far as there are series: the first one, and one above the last.
    pub(crate) fn positions_of(&self, group: usize) -> (usize, usize)
        ensures first { result.0 ≡ min (group * 16) (2 ^ 64 - 1) }
        ensures end { result.1 ≡ min (group * 16 + 16) (length self.now) }
        ensures fits { length self.now < 2 ^ 64 }
    {
        positions_of(&self.placed, group)
    }

    // The first value of the series at this position at the times from `low` on, where it is of the namespace.
    pub(crate) fn first_at(&self, position: usize, ns: u8, low: u64) -> Option<Spot>
        requires { (s : SeriesKey) × IsAt self.now position s }
        ensures none { result ≡ None → (s : SeriesKey) → IsAt self.now position s → s.ns ≡ ns → HasNoneLater self.now s low }
        ensures some { IfSome result (λ x. (x.position ≡ position) × ((s : SeriesKey) → IsAt self.now position s → (s.ns ≡ ns) × IsFirstAt self.now position s low x.t x.v)) }
    {
        if self.placed.space_at(position) != ns {
            return None;
        }
        let (t, v) = self.placed.first_from(position, low)?;
        Some(Spot { position, t, v })
    }

    // The first point of the series that come after this one: its series, its time and its value.
    pub(crate) fn first_above(&self, series: &SeriesKey) -> Option<(&SeriesKey, u64, i64)>
        ensures none { result ≡ None → HasNoneAbove (points_of (slots_of self.now)) series.now }
        ensures some { IfSome result (λ x. IsFirstAbove (points_of (slots_of self.now)) series.now x.0.now x.1 x.2) }
    {
        self.placed.first_above(series)
    }

    // The first group from this one on at which a slot of the namespace up to this time may stand.
    pub(crate) fn next_group(&self, from: usize, ns: u8, high: u64) -> Option<usize>
        ensures none { result ≡ None → (position : ℕ) → from ≤ group_of position → IsLate self.now ns high position }
        ensures some { IfSome result (λ group. (from ≤ group) × ((position : ℕ) → from ≤ group_of position → group_of position < group → IsLate self.now ns high position)) }
        ensures small { IfSome result (λ group. group < 2 ^ 63) }
        ensures times { (k : Key) → IsSome (slot_at (slots_of self.now) k) → k.t < 2 ^ 64 }
    {
        self.firsts.next_up_to(ns, from, high)
    }

    // Notes for the group and the namespace its first slot again, from which others may have left.
    fn note_again(&mut self, group: usize, ns: u8)
        ensures { self.new ≡ self.old }
    {
        let first = first_of_group(&self.placed, group, ns);
        self.firsts.set(ns, group, first);
    }

    // A value of the namespace at the times from `low` up to and with `high`. Looks at the groups of series of which one may have a
    // slot up to `high`: first at those from that of this position on.
    pub(crate) fn any_within(&mut self, from: usize, ns: u8, low: u64, high: u64) -> Option<Spot>
        ensures same { self.new ≡ self.old }
        ensures none { result ≡ None → HasNoValueOf self.new (IsKeyWithin ns low high) }
        ensures some { IfSome result (λ x. IsValueOf self.new (IsKeyWithin ns low high) x.position x.t x.v) }
    {
        match self.within_from(from / GROUP, ns, low, high) {
            Some(spot) => Some(spot),
            None => self.within_from(0, ns, low, high),
        }
    }

    // The same, of the groups from this one on.
    fn within_from(&mut self, from: usize, ns: u8, low: u64, high: u64) -> Option<Spot>
        ensures same { self.new ≡ self.old }
        ensures none { result ≡ None → (position : ℕ) → from ≤ group_of position → IsClear self.new position (IsKeyWithin ns low high) }
        ensures some { IfSome result (λ x. IsValueOf self.new (IsKeyWithin ns low high) x.position x.t x.v) }
    {
        let mut next = from;
        while let Some(group) = self.next_group(next, ns, high) {
            let found = self.within_group(group, ns, low, high);
            if found.is_some() {
                return found;
            }
            self.note_again(group, ns);
            next = group + 1;
        }
        None
    }

    // The same, of the group.
    fn within_group(&self, group: usize, ns: u8, low: u64, high: u64) -> Option<Spot>
        ensures none { result ≡ None → (position : ℕ) → group_of position ≡ group → IsClear self.now position (IsKeyWithin ns low high) }
        ensures some { IfSome result (λ x. IsValueOf self.now (IsKeyWithin ns low high) x.position x.t x.v) }
    {
        let (first, end) = self.positions_of(group);
        for position in first..end {
            let found = self.within_at(position, ns, low, high);
            if found.is_some() {
                return found;
            }
        }
        None
    }

    // A value of the series at this position at the times from `low` up to and with `high`, where it is of the namespace.
    pub(crate) fn within_at(&self, position: usize, ns: u8, low: u64, high: u64) -> Option<Spot>
        requires { (s : SeriesKey) × IsAt self.now position s }
        ensures none { result ≡ None → HasNoneAt self.now position (IsKeyWithin ns low high) }
        ensures some { IfSome result (λ x. IsValueOf self.now (IsKeyWithin ns low high) x.position x.t x.v) }
        ensures first { IfSome result (λ x. (s : SeriesKey) → IsAt self.now position s → (s.ns ≡ ns) × IsFirstAt self.now position s low x.t x.v) }
    {
        let spot = self.first_at(position, ns, low)?;
        if high < spot.t {
            return None;
        }
        Some(spot)
    }

    // A value that has expired. Looks for each namespace as `any_within`.
    pub(crate) fn any_expired(&mut self, from: usize, rules: &Rules) -> Option<Spot>
        ensures same { self.new ≡ self.old }
        ensures none { result ≡ None → HasNoValueOf self.new (λ k. has_expired rules.entry.now k ≡ true) }
        ensures some { IfSome result (λ x. IsValueOf self.new (λ k. has_expired rules.entry.now k ≡ true) x.position x.t x.v) }
    {
        for space in 0..self.spaces() {
            let found = self.expired_of(from, rules, space as u8);
            if found.is_some() {
                return found;
            }
        }
        None
    }

    // A value of the namespace that has expired.
    fn expired_of(&mut self, from: usize, rules: &Rules, ns: u8) -> Option<Spot>
        ensures same { self.new ≡ self.old }
        ensures none { result ≡ None → HasNoValueOf self.new (λ k. (k.ns ≡ ns) × (has_expired rules.entry.now k ≡ true)) }
        ensures some { IfSome result (λ x. IsValueOf self.new (λ k. has_expired rules.entry.now k ≡ true) x.position x.t x.v) }
    {
        let last = last_expired(rules, ns)?;
        self.any_within(from, ns, 0, last)
    }

    // Takes the value at the spot out, and then the series if it has no slot.
    pub(crate) fn take_spot(&mut self, spot: Spot) -> Taken
        requires { (s : SeriesKey) × StandsAt self.old spot.position spot.t s × (value_of (slots_of self.old) (key_at s spot.t) ≡ Some spot.v) }
        ensures { (s : SeriesKey) → StandsAt self.old spot.position spot.t s → IsTakenAt self.old self.new spot.position s spot.t result }
    {
        let gone = self.take(spot.position, spot.t);
        Taken {
            t: spot.t,
            v: spot.v,
            gone,
        }
    }

    // A number of namespaces: each slot is of one of the first ones.
    pub(crate) fn spaces(&self) -> usize
        ensures below { (k : Key) → IsSome (slot_at (slots_of self.now) k) → k.ns < result }
        ensures limit { result ≤ 256 }
    {
        self.spaces
    }

    // Whether the series has a slot.
    pub(crate) fn has(&self, series: &SeriesKey) -> bool
        ensures some { IsTrue result → (t : ℕ) × IsSome (slot_at (slots_of self.now) (key_at series.now t)) }
        ensures none { result ≡ false → HasNoSlots self.now series.now }
    {
        match self.placed.position_of(series) {
            Some(position) => !self.placed.is_vacant(position),
            None => false,
        }
    }

    // The points of a series with `from <= t < to`.
    pub(crate) fn range_of(
        &self,
        alloc: Global,
        ns: u8,
        id: &Text,
        from: u64,
        to: u64,
    ) -> Result<Seq<Series>, Memory>
        ensures { IfOk result (IsRangeOf (points_of (slots_of self.now)) (pick.One ns id.now) from to) }
    {
        self.placed.range_of(alloc, ns, id, from, to)
    }

    // The points of a namespace with `from <= t < to`. Looks at the groups of series of which one may have a slot before `to`.
    pub(crate) fn range_of_space(
        &self,
        alloc: Global,
        ns: u8,
        from: u64,
        to: u64,
    ) -> Result<Seq<Series>, Memory>
        ensures { IfOk result (λ found. (wanted : List Matcher) → IsRangeOf (points_of (slots_of self.now)) (pick.Match ns wanted) from to found) }
    {
        let mut found = Vec::new(alloc);
        let mut next = 0;
        while let Some(group) = self.next_group(next, ns, to) {
            self.push_group(alloc, &mut found, group, ns, from, to)?;
            next = group + 1;
        }
        Ok(self.placed.in_order(found))
    }

    // Pushes the series of the group with their points in the range.
    fn push_group(
        &self,
        alloc: Global,
        found: &mut Vec<Series>,
        group: usize,
        ns: u8,
        from: u64,
        to: u64,
    ) -> Result<(), Memory>
        ensures { OnOk result (found.old.items ≡ flat_map (series_in ns from to) (take (group * 16) self.now) → found.new.items ≡ flat_map (series_in ns from to) (take ((group + 1) * 16) self.now)) }
    {
        let (first, end) = self.positions_of(group);
        for position in first..end {
            self.placed
                .push_range_at(alloc, found, position, ns, from, to)?;
        }
        Ok(())
    }
}
