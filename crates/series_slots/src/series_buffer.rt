ghost use Rattle.std.specs.Prelude.{◌≡◌, ◌<◌, ◌↔◌, Some, None, length, IsTrue, IsSome, IfOk, IfErr, IfSome, OnOk, OnErr};
ghost use Rattle.std.specs.FinMap as finite;
ghost use Rattle.std.specs.FinMap.{entries, is_sorted};
ghost use Rattle.std.specs.List.{filter_map};
ghost use Rattle.m3_model.specs.Contents.{higher, is_higher};
ghost use Rattle.std.specs.Ordering.{nat_cmp};
ghost use Rattle.series_slots.specs.Slots.{value_at, valued_in};
ghost use Rattle.series_slots.specs.Firsts.{IsFirstFrom, IsBareFrom, IsFirstTime, HasNoTime};
ghost use Rattle.series_slots.specs.SlotPlaces.{IsSlotAt, IsGapFor, IsPlaceFrom};

use m3_model::Memory;
use std::alloc::Global;
use std::collections::VecDeque;
use std::marker::Model;

// The slots of one series, by ascending time: a list, since most points come after all that stand, and most that leave are
// the first. A slot without a value is room for one.
#[derive(Drop)]
pub(crate) struct SeriesBuffer {
    slots: VecDeque<(u64, Option<i64>)>,
}

impl Model for SeriesBuffer {
    ghost use Rattle.std.specs.Prelude.{IsTrue};
    ghost use Rattle.std.specs.Ordering.{nat_cmp};
    ghost use Rattle.std.specs.FinMap.{from_sorted, is_sorted};
    ghost use Rattle.series_slots.specs.Slots.{Slots, slots_code};

    ghost Value = { Slots };

    ghost coded = { slots_code };

    ghost view = { λ s. from_sorted s.slots.items };

    ghost invariant = { λ s. IsTrue (is_sorted nat_cmp s.slots.items) };
}

// Whether no value stands, or a lower one.
fn is_below(stands: Option<i64>, v: i64) -> bool
    ensures { result ≡ is_higher stands v }
{
    match stands {
        Some(w) => w < v,
        None => true,
    }
}

// Puts the value into the slot, unless one at least as high stands there. Says whether it was put.
fn raise_slot(slot: &mut Option<i64>, v: i64) -> bool
    ensures raised { slot.new ≡ Some (higher slot.old v) }
    ensures changed { result ≡ is_higher slot.old v }
{
    let rises = is_below(*slot, v);
    if rises {
        *slot = Some(v);
    }
    rises
}

// Whether each slot is of an earlier time, in constant time.
fn is_after_all(slots: &VecDeque<(u64, Option<i64>)>, t: u64) -> bool
    requires { IsTrue (is_sorted nat_cmp slots.now.items) }
    ensures { IsTrue result → IsGapFor t slots.now.items (length slots.now.items) }
{
    match slots.back() {
        Some((last, _)) => *last < t,
        None => true,
    }
}

fn time_of(slot: &(u64, Option<i64>)) -> u64
    ensures { result ≡ slot.now.0 }
{
    slot.0
}

// The position of the slot of this time, or else that where one would stand: in constant time after all slots, else in the
// logarithm of them.
fn position_of(slots: &VecDeque<(u64, Option<i64>)>, t: u64) -> Result<usize, usize>
    requires { IsTrue (is_sorted nat_cmp slots.now.items) }
    ensures there { IfOk result (IsSlotAt t slots.now.items) }
    ensures absent { IfErr result (IsGapFor t slots.now.items) }
{
    if is_after_all(slots, t) {
        return Err(slots.len());
    }
    slots.binary_search_by_key(&t, time_of)
}

// The position of the first slot from this time on.
fn place_from(slots: &VecDeque<(u64, Option<i64>)>, t: u64) -> usize
    requires { IsTrue (is_sorted nat_cmp slots.now.items) }
    ensures { IsPlaceFrom t slots.now.items result }
{
    match position_of(slots, t) {
        Ok(position) => position,
        Err(position) => position,
    }
}

// The values of the slots with `from <= t < to`.
fn pairs_between(
    alloc: Global,
    slots: &VecDeque<(u64, Option<i64>)>,
    from: u64,
    to: u64,
) -> Result<Vec<(u64, i64)>, Memory>
    requires sorted { IsTrue (is_sorted nat_cmp slots.now.items) }
    requires some { from < to }
    ensures { IfOk result (λ pairs. pairs.items ≡ filter_map (valued_in from to) slots.now.items) }
{
    let low = place_from(slots, from);
    let high = place_from(slots, to);
    let mut pairs = Vec::with_capacity(alloc, high - low)?;
    for (t, slot) in slots.range(low..high) {
        if let Some(value) = slot {
            pairs.push((*t, *value))?;
        }
    }
    Ok(pairs)
}

impl SeriesBuffer {
    pub(crate) fn new(alloc: Global) -> SeriesBuffer
        ensures { result ≡ finite.empty }
    {
        SeriesBuffer {
            slots: VecDeque::new(alloc),
        }
    }

    // The slot at this time, if there is one.
    pub(crate) fn get(&self, t: u64) -> Option<Option<i64>>
        ensures { result ≡ finite.get self.now t }
    {
        match position_of(&self.slots, t) {
            Ok(position) => Some(self.slots[position].1),
            Err(_) => None,
        }
    }

    // Makes the slot at this time one without a value. A new one moves the slots on its shorter side by a position.
    pub(crate) fn hold(&mut self, t: u64) -> Result<(), Memory>
        ensures ok { OnOk result (self.new ≡ finite.insert self.old t None) }
        ensures err { OnErr result (self.new ≡ self.old) }
    {
        match position_of(&self.slots, t) {
            Ok(position) => self.slots[position] = (t, None),
            Err(position) => self.slots.insert(position, (t, None))?,
        }
        Ok(())
    }

    // Puts the value into the slot at this time, unless one at least as high stands there. Says whether it was put.
    pub(crate) fn raise(&mut self, t: u64, v: i64) -> bool
        requires { IsSome (finite.get self.old t) }
        ensures raised { self.new ≡ finite.insert self.old t (Some (higher (value_at self.old t) v)) }
        ensures changed { result ≡ is_higher (value_at self.old t) v }
    {
        match position_of(&self.slots, t) {
            Ok(position) => {
                let mut slot = self.slots[position].1;
                let rises = raise_slot(&mut slot, v);
                self.slots[position] = (t, slot);
                rises
            }
            Err(_) => false,
        }
    }

    // Takes the slot at this time out. That moves the slots on its shorter side by a position.
    pub(crate) fn take(&mut self, t: u64)
        ensures { self.new ≡ finite.remove self.old t }
    {
        match position_of(&self.slots, t) {
            Ok(position) => {
                self.slots.remove(position);
            }
            Err(_) => {}
        }
    }

    // The values with `from <= t < to`, by ascending time.
    pub(crate) fn pairs(&self, alloc: Global, from: u64, to: u64) -> Result<Vec<(u64, i64)>, Memory>
        ensures { IfOk result (λ pairs. pairs.items ≡ filter_map (valued_in from to) (entries self.now)) }
    {
        if to <= from {
            return Ok(Vec::new(alloc));
        }
        pairs_between(alloc, &self.slots, from, to)
    }

    // The time and the value of the first slot from `low` on that has one.
    pub(crate) fn first_from(&self, low: u64) -> Option<(u64, i64)>
        ensures none { result ≡ None → IsBareFrom self.now low }
        ensures some { IfSome result (λ x. IsFirstFrom self.now low x.0 x.1) }
    {
        let position = place_from(&self.slots, low);
        for (t, slot) in self.slots.range(position..) {
            if let Some(value) = slot {
                return Some((*t, *value));
            }
        }
        None
    }

    // The time of the first slot.
    pub(crate) fn first(&self) -> Option<u64>
        ensures none { result ≡ None → HasNoTime self.now }
        ensures some { IfSome result (IsFirstTime self.now) }
    {
        let (t, _) = self.slots.front()?;
        Some(*t)
    }

    // Whether it has no slot.
    pub(crate) fn is_empty(&self) -> bool
        ensures { IsTrue result ↔ (length (entries self.now) ≡ 0) }
    {
        self.slots.is_empty()
    }
}
