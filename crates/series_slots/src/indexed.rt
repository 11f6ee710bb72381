ghost use Rattle.std.specs.Prelude.{◌≡◌, ◌↔◌, ℕ, List, [], Some, None, length, slice_get, IsTrue, IfOk, IfSome, OnOk, OnErr, ◌++◌, IsPermutation, IsSortedByKey};
ghost use Rattle.std.specs.List.{flat_map, filter_map};
ghost use Rattle.std.specs.Cmp.Lexicographic.{slice_cmp};
ghost use Rattle.std.specs.Ordering.{nat_cmp};
ghost use Rattle.std.specs.FinMap as finite;
ghost use Rattle.m3_model.specs.declared.point.Matcher.{Matcher};
ghost use Rattle.m3_model.specs.declared.point.Pick.TheVariants as pick;
ghost use Rattle.m3_model.specs.Contents.{higher, is_higher};
ghost use Rattle.series_slots.specs.declared.series_key.SeriesKey.{SeriesKey};
ghost use Rattle.series_slots.specs.Slots.{Slots, value_at, valued_in};
ghost use Rattle.series_slots.specs.Points.{points_of};
ghost use Rattle.series_slots.specs.SeriesEntries.{IsAt, StandsAt, slots_of};
ghost use Rattle.series_slots.specs.Firsts.{IsFirstAt, IsFirstValue, HasNoneLater, IsFirstTime, HasNoTime};
ghost use Rattle.series_slots.specs.Above.{HasNoneAbove, IsFirstAbove};
ghost use Rattle.series_slots.specs.Written.{IsWritten, IsAdded, IsRemoved};
ghost use Rattle.series_slots.specs.Ranges.{IsRangeOf, some_series, series_in};

use crate::series_buffer::SeriesBuffer;
use crate::series_key::SeriesKey;
use indexmap::IndexMap;
use m3_model::{Duplicate, Memory, Seq, Series, Text};
use std::alloc::Global;
use std::collections::BTreeSet;
use std::marker::Model;
use std::ops::Bound;

/// Series with their slots. Contracts see them by their positions, which count from 0. A position is that of its series until a
/// series leaves. Beside that the series stand in their order, by which the next one is found.
///
/// The slots of a series are a list by time: one that comes after all others is appended, and one that comes or goes within
/// them moves those on its shorter side by a position. Late points are rare, and a series has at most the points of its open blocks.
#[derive(Drop)]
pub struct IndexedSeries {
    map: IndexMap<SeriesKey, SeriesBuffer>,
    // The series, in their order.
    order: BTreeSet<SeriesKey>,
}

impl Model for IndexedSeries {
    ghost use Rattle.std.specs.List.{IsDistinct};
    ghost use Rattle.std.specs.Map.{keys_of};
    ghost use Rattle.std.specs.BTreeSet.{contains};
    ghost use Rattle.series_slots.specs.SeriesKeys.{series_cmp, series_eq};
    ghost use Rattle.series_slots.specs.SeriesEntries.{SeriesEntries, series_entries_code};
    ghost use Rattle.series_slots.specs.Above.{AreListed};

    ghost Value = { SeriesEntries };

    ghost coded = { series_entries_code };

    ghost view = { λ a. a.map.entries };

    ghost invariant = { λ a. IsDistinct series_eq (keys_of a.map.entries) × AreListed (contains series_cmp a.order) a.map.entries };
}

impl IndexedSeries {
    /// No series. Takes no memory.
    pub fn new(alloc: Global) -> IndexedSeries
        ensures { result ≡ [] }
    {
        IndexedSeries {
            map: IndexMap::new(alloc),
            order: BTreeSet::new(alloc),
        }
    }

    /// The position of the series, if it is there, in constant expected time.
    pub fn position_of(&self, series: &SeriesKey) -> Option<usize>
        ensures there { IfSome result (λ position. IsAt self.now position series.now) }
        ensures absent { result ≡ None → finite.get (slots_of self.now) series.now ≡ None }
    {
        let (position, _, _) = self.map.get_full(series)?;
        Some(position)
    }

    /// How many positions there are.
    pub fn len(&self) -> usize
        ensures { result ≡ length self.now }
    {
        self.map.len()
    }

    /// The namespace of the series at this position, in constant time.
    pub fn space_at(&self, position: usize) -> u8
        requires { (s : SeriesKey) × IsAt self.now position s }
        ensures { (s : SeriesKey) → IsAt self.now position s → result ≡ s.ns }
    {
        match self.map.get_index(position) {
            Some((series, _)) => series.ns,
            None => 0,
        }
    }

    /// The slot of the series at this position and time, if there is one, in the logarithm of the series' slots.
    pub fn slot_at(&self, position: usize, t: u64) -> Option<Option<i64>>
        requires { (s : SeriesKey) × IsAt self.now position s }
        ensures slot { (s : SeriesKey) (slots : Slots) → slice_get self.now position ≡ Some (s, slots) → result ≡ finite.get slots t }
        ensures found { (s : SeriesKey) (slots : Slots) → slice_get self.now position ≡ Some (s, slots) → finite.get (slots_of self.now) s ≡ Some slots }
    {
        self.map[position].get(t)
    }

    /// The time and the value of the first slot of the series at this position from `low` on that has one. Costs the logarithm of the
    /// series' slots, beside those without a value that come before.
    pub fn first_from(&self, position: usize, low: u64) -> Option<(u64, i64)>
        requires { (s : SeriesKey) × IsAt self.now position s }
        ensures none { result ≡ None → (s : SeriesKey) → IsAt self.now position s → HasNoneLater self.now s low }
        ensures some { IfSome result (λ x. (s : SeriesKey) → IsAt self.now position s → IsFirstAt self.now position s low x.0 x.1) }
    {
        self.map[position].first_from(low)
    }

    /// The time of the first slot of the series at this position, whether that has a value or not, in constant time.
    pub fn first_time(&self, position: usize) -> Option<u64>
        requires { (s : SeriesKey) × IsAt self.now position s }
        ensures none { result ≡ None → (s : SeriesKey) (slots : Slots) → slice_get self.now position ≡ Some (s, slots) → HasNoTime slots }
        ensures some { IfSome result (λ t. (s : SeriesKey) (slots : Slots) → slice_get self.now position ≡ Some (s, slots) → IsFirstTime slots t) }
    {
        self.map[position].first()
    }

    /// Whether the series at this position has no slot, in constant time.
    pub fn is_vacant(&self, position: usize) -> bool
        requires { (s : SeriesKey) × IsAt self.now position s }
        ensures vacant { (s : SeriesKey) (slots : Slots) → slice_get self.now position ≡ Some (s, slots) → IsTrue result ↔ (length (finite.entries slots) ≡ 0) }
        ensures found { (s : SeriesKey) (slots : Slots) → slice_get self.now position ≡ Some (s, slots) → finite.get (slots_of self.now) s ≡ Some slots }
    {
        self.map[position].is_empty()
    }

    // The time and the value of the first slot of the series that has one.
    fn first_of(&self, series: &SeriesKey) -> Option<(u64, i64)>
        ensures none { result ≡ None → HasNoneLater self.now series.now 0 }
        ensures some { IfSome result (λ x. IsFirstValue self.now series.now x.0 x.1) }
    {
        let position = self.position_of(series)?;
        self.first_from(position, 0)
    }

    /// The first point of the series that come after this one: its series, its time and its value. Costs the logarithm of the series,
    /// beside those without a value that come before.
    pub fn first_above(&self, series: &SeriesKey) -> Option<(&SeriesKey, u64, i64)>
        ensures none { result ≡ None → HasNoneAbove (points_of (slots_of self.now)) series.now }
        ensures some { IfSome result (λ x. IsFirstAbove (points_of (slots_of self.now)) series.now x.0.now x.1 x.2) }
    {
        for next in self
            .order
            .range((Bound::Excluded(series), Bound::Unbounded))
        {
            if let Some((t, v)) = self.first_of(next) {
                return Some((next, t, v));
            }
        }
        None
    }

    /// Adds the series without slots, at the last position, in the logarithm of the series.
    ///
    /// # Errors
    ///
    /// Want of memory changes nothing.
    pub fn add(&mut self, alloc: Global, series: SeriesKey) -> Result<usize, Memory>
        requires { finite.get (slots_of self.old) series ≡ None }
        ensures ok { IfOk result (IsAdded self.old self.new series) }
        ensures err { OnErr result (self.new ≡ self.old) }
    {
        self.map.reserve(1)?;
        let position = self.map.len();
        self.order.insert(series.copy(alloc)?)?;
        self.map.insert(series, SeriesBuffer::new(alloc))?;
        Ok(position)
    }

    /// Makes the slot of the series at this position and time one without a value. A new slot after all others costs constant time
    /// beside the room for it; any other costs the logarithm of the series' slots, and a new one moves those on its shorter side.
    ///
    /// # Errors
    ///
    /// Want of memory changes nothing.
    pub fn hold(&mut self, position: usize, t: u64) -> Result<(), Memory>
        requires { (s : SeriesKey) × IsAt self.old position s }
        ensures ok { (s : SeriesKey) (slots : Slots) → slice_get self.old position ≡ Some (s, slots) → OnOk result (IsWritten self.old self.new position s slots (finite.insert slots t None)) }
        ensures err { OnErr result (self.new ≡ self.old) }
    {
        self.map[position].hold(t)
    }

    /// Puts the value into the slot of the series at this position and time, unless one at least as high stands there. Says
    /// whether it was put. Takes no memory, and the logarithm of the series' slots.
    pub fn raise(&mut self, position: usize, t: u64, v: i64) -> bool
        requires { (s : SeriesKey) × StandsAt self.old position t s }
        ensures raised { (s : SeriesKey) (slots : Slots) → slice_get self.old position ≡ Some (s, slots) → IsWritten self.old self.new position s slots (finite.insert slots t (Some (higher (value_at slots t) v))) }
        ensures changed { (s : SeriesKey) (slots : Slots) → slice_get self.old position ≡ Some (s, slots) → result ≡ is_higher (value_at slots t) v }
    {
        self.map[position].raise(t, v)
    }

    /// Takes the slot of the series at this position and time out. Takes no memory, and the logarithm of the series' slots; moves
    /// those on its shorter side, of which the first and the last have none.
    pub fn take(&mut self, position: usize, t: u64)
        requires { (s : SeriesKey) × IsAt self.old position s }
        ensures { (s : SeriesKey) (slots : Slots) → slice_get self.old position ≡ Some (s, slots) → IsWritten self.old self.new position s slots (finite.remove slots t) }
    {
        self.map[position].take(t);
    }

    /// Takes the series at this position out, with its slots; the last series takes its place. Takes no memory, and the logarithm of
    /// the series beside its slots.
    pub fn remove(&mut self, position: usize) -> Option<SeriesKey>
        requires { (s : SeriesKey) × IsAt self.old position s }
        ensures key { (s : SeriesKey) (slots : Slots) → slice_get self.old position ≡ Some (s, slots) → result ≡ Some s }
        ensures removed { (s : SeriesKey) (slots : Slots) → slice_get self.old position ≡ Some (s, slots) → IsRemoved self.old self.new position s slots }
    {
        let (series, buffer) = self.map.swap_remove_index(position)?;
        drop(buffer);
        self.order.remove(&series);
        Some(series)
    }

    /// The points of a series with `from <= t < to`. The series is found in constant expected time, the points in logarithmic
    /// time and in proportion to the answer.
    pub fn range_of(
        &self,
        alloc: Global,
        ns: u8,
        id: &Text,
        from: u64,
        to: u64,
    ) -> Result<Seq<Series>, Memory>
        ensures { IfOk result (IsRangeOf (points_of (slots_of self.now)) (pick.One ns id.now) from to) }
    {
        let mut found = Vec::new(alloc);
        let key = SeriesKey {
            ns,
            id: id.copy(alloc)?,
        };
        match self.map.get(&key) {
            Some(buffer) => {
                push_range(alloc, &mut found, id, buffer, from, to)?;
                Ok(Seq::from_vec(found))
            }
            None => Ok(Seq::new(alloc)),
        }
    }

    /// Pushes the series at this position with its points with `from <= t < to`, if it is of the namespace and has any. Costs the
    /// logarithm of its slots, and its proportion to the points.
    ///
    /// # Errors
    ///
    /// Want of memory leaves the list as it was.
    pub fn push_range_at(
        &self,
        alloc: Global,
        found: &mut Vec<Series>,
        position: usize,
        ns: u8,
        from: u64,
        to: u64,
    ) -> Result<(), Memory>
        requires { (s : SeriesKey) × IsAt self.now position s }
        ensures ok { (s : SeriesKey) (slots : Slots) → slice_get self.now position ≡ Some (s, slots) → OnOk result (found.new.items ≡ found.old.items ++ series_in ns from to (s, slots)) }
        ensures err { OnErr result (found.new.items ≡ found.old.items) }
    {
        if self.space_at(position) != ns {
            return Ok(());
        }
        match self.map.get_index(position) {
            Some((series, buffer)) => push_range(alloc, found, &series.id, buffer, from, to),
            None => Ok(()),
        }
    }

    /// The series in the order of their identifiers, which are then a range if they were those of the positions in turn. Costs that
    /// order.
    pub fn in_order(&self, found: Vec<Series>) -> Seq<Series>
        ensures { (ns from to : ℕ) → found.items ≡ flat_map (series_in ns from to) self.now → (wanted : List Matcher) → IsRangeOf (points_of (slots_of self.now)) (pick.Match ns wanted) from to result }
    {
        let _ = &self.map;
        Seq::from_vec(by_id(found))
    }
}

// The series in the order of their identifiers.
fn by_id(mut found: Vec<Series>) -> Vec<Series>
    ensures same { IsPermutation found.items result.items }
    ensures order { IsSortedByKey (λ s. s.id) (slice_cmp nat_cmp) result.items }
{
    found.sort_unstable_by(|a, b| a.id.cmp(&b.id));
    found
}

// Pushes the series with its pairs in the range, if there are any.
fn push_range(
    alloc: Global,
    found: &mut Vec<Series>,
    id: &Text,
    buffer: &SeriesBuffer,
    from: u64,
    to: u64,
) -> Result<(), Memory>
    ensures ok { OnOk result (found.new.items ≡ found.old.items ++ some_series id.now (filter_map (valued_in from to) (finite.entries buffer.now))) }
    ensures err { OnErr result (found.new.items ≡ found.old.items) }
{
    let pairs = buffer.pairs(alloc, from, to)?;
    if pairs.is_empty() {
        return Ok(());
    }
    let id = id.copy(alloc)?;
    let points = Seq::from_vec(pairs);
    found.push(Series { id, points })?;
    Ok(())
}
