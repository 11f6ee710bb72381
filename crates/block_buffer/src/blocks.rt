ghost use Rattle.std.specs.Prelude.{◌≡◌, ◌⊎◌, ℕ, ℤ, ◌<◌, ◌≤◌, ◌^◌, Some, None, true, false, nat_le, IfOk, IfSome, OnOk};
ghost use Rattle.std.specs.List.{All};
ghost use Rattle.std.specs.BTreeSet.{contains, IsOrdered};
ghost use Rattle.m3_model.specs.declared.point.Key.{Key};
ghost use Rattle.series_slots.specs.Points.{value_of};
ghost use Rattle.series_slots.specs.SeriesEntries.{IsAt, slots_of};
ghost use Rattle.series_slots.specs.declared.series_key.SeriesKey.{SeriesKey};
ghost use Rattle.block_buffer.specs.Spots.{group_of};
ghost use Rattle.block_buffer.specs.Blocks.{block_cmp, block_start, block_of, is_over, has_closed, HasStartsAt, IsStartOf, IsBlockOf, IsClosedBlockOf};

use crate::all_series::AllSeries;
use m3_model::{Memory, Rules, Space};
use retention::space_of;
use std::alloc::Global;
use std::collections::BTreeSet;

// The blocks of the rules that have points.
pub(crate) fn block_starts(
    alloc: Global,
    all: &AllSeries,
    rules: &Rules,
) -> Result<BTreeSet<(u8, u64)>, Memory>
    requires { All (λ space. 0 < space.block) rules.now.spaces }
    ensures held { IfOk result (λ starts. (q : ℕ × ℕ) → contains block_cmp starts q ≡ true → IsBlockOf rules.entry.now all.now q) }
    ensures whole { IfOk result (λ starts. (k : Key) (v : ℤ) (q : ℕ × ℕ) → value_of (slots_of all.now) k ≡ Some v → block_of rules.entry.now k ≡ Some q → contains block_cmp starts q ≡ true) }
{
    let mut starts = BTreeSet::new(alloc);
    for space in 0..all.spaces() {
        add_blocks(all, rules, space as u8, &mut starts)?;
    }
    Ok(starts)
}

// Adds the blocks of the namespace that have points.
fn add_blocks(
    all: &AllSeries,
    rules: &Rules,
    ns: u8,
    starts: &mut BTreeSet<(u8, u64)>,
) -> Result<(), Memory>
    requires { All (λ space. 0 < space.block) rules.now.spaces }
    ensures kept { OnOk result ((q : ℕ × ℕ) → contains block_cmp starts.old q ≡ true → contains block_cmp starts.new q ≡ true) }
    ensures held { OnOk result ((q : ℕ × ℕ) → contains block_cmp starts.new q ≡ true → (contains block_cmp starts.old q ≡ true) ⊎ IsBlockOf rules.entry.now all.now q) }
    ensures whole { OnOk result ((k : Key) (v : ℤ) (q : ℕ × ℕ) → value_of (slots_of all.now) k ≡ Some v → k.ns ≡ ns → block_of rules.entry.now k ≡ Some q → contains block_cmp starts.new q ≡ true) }
{
    match space_of(rules, ns) {
        Some(space) => add_starts(all, ns, space.block, u64::MAX, starts),
        None => Ok(()),
    }
}

// The blocks of the rules that have points and of which no write is taken any more.
pub(crate) fn closed_starts(
    alloc: Global,
    all: &AllSeries,
    rules: &Rules,
) -> Result<BTreeSet<(u8, u64)>, Memory>
    requires { All (λ space. 0 < space.block) rules.now.spaces }
    ensures held { IfOk result (λ starts. (q : ℕ × ℕ) → contains block_cmp starts q ≡ true → IsClosedBlockOf rules.entry.now all.now q) }
    ensures whole { IfOk result (λ starts. (k : Key) (v : ℤ) (q : ℕ × ℕ) → value_of (slots_of all.now) k ≡ Some v → block_of rules.entry.now k ≡ Some q → has_closed rules.entry.now q ≡ true → contains block_cmp starts q ≡ true) }
{
    let mut starts = BTreeSet::new(alloc);
    for space in 0..all.spaces() {
        add_closed(all, rules, space as u8, &mut starts)?;
    }
    Ok(starts)
}

// Adds the blocks of the namespace that have points and of which no write is taken any more.
fn add_closed(
    all: &AllSeries,
    rules: &Rules,
    ns: u8,
    starts: &mut BTreeSet<(u8, u64)>,
) -> Result<(), Memory>
    requires { All (λ space. 0 < space.block) rules.now.spaces }
    ensures kept { OnOk result ((q : ℕ × ℕ) → contains block_cmp starts.old q ≡ true → contains block_cmp starts.new q ≡ true) }
    ensures held { OnOk result ((q : ℕ × ℕ) → contains block_cmp starts.new q ≡ true → (contains block_cmp starts.old q ≡ true) ⊎ IsClosedBlockOf rules.entry.now all.now q) }
    ensures whole { OnOk result ((k : Key) (v : ℤ) (q : ℕ × ℕ) → value_of (slots_of all.now) k ≡ Some v → k.ns ≡ ns → block_of rules.entry.now k ≡ Some q → has_closed rules.entry.now q ≡ true → contains block_cmp starts.new q ≡ true) }
{
    let Some(space) = space_of(rules, ns) else {
        return Ok(());
    };
    match last_closed(space, rules.now) {
        Some(last) => add_starts(all, ns, space.block, last, starts),
        None => Ok(()),
    }
}

// The last time of the blocks of the space of which no write is taken any more, if there is one.
fn last_closed(space: &Space, now: u64) -> Option<u64>
    requires { 0 < space.now.block }
    ensures none { result ≡ None → (t : ℕ) → is_over (Some space.now) (block_start space.now.block t) now ≡ false }
    ensures some { IfSome result (λ last. (t : ℕ) → is_over (Some space.now) (block_start space.now.block t) now ≡ nat_le t last) }
{
    let taken_from = now.checked_sub(space.past)?;
    let end = taken_from - taken_from % space.block;
    if end == 0 {
        return None;
    }
    Some(end - 1)
}

// Adds the blocks of this size of the namespace that have points up to this time.
fn add_starts(
    all: &AllSeries,
    ns: u8,
    size: u64,
    last: u64,
    starts: &mut BTreeSet<(u8, u64)>,
) -> Result<(), Memory>
    requires { 0 < size }
    ensures kept { OnOk result ((q : ℕ × ℕ) → contains block_cmp starts.old q ≡ true → contains block_cmp starts.new q ≡ true) }
    ensures held { OnOk result ((q : ℕ × ℕ) → contains block_cmp starts.new q ≡ true → (contains block_cmp starts.old q ≡ true) ⊎ IsStartOf all.now ns size last q) }
    ensures whole { OnOk result ((k : Key) (v : ℤ) → value_of (slots_of all.now) k ≡ Some v → k.ns ≡ ns → k.t ≤ last → contains block_cmp starts.new (ns, block_start size k.t) ≡ true) }
    ensures times { OnOk result ((k : Key) (v : ℤ) → value_of (slots_of all.now) k ≡ Some v → k.t < 2 ^ 64) }
{
    let mut next = 0;
    while let Some(group) = all.next_group(next, ns, last) {
        add_group(all, group, ns, size, last, starts)?;
        next = group + 1;
    }
    Ok(())
}

// The same, of the series of the group.
fn add_group(
    all: &AllSeries,
    group: usize,
    ns: u8,
    size: u64,
    last: u64,
    starts: &mut BTreeSet<(u8, u64)>,
) -> Result<(), Memory>
    requires { 0 < size }
    ensures kept { OnOk result ((q : ℕ × ℕ) → contains block_cmp starts.old q ≡ true → contains block_cmp starts.new q ≡ true) }
    ensures held { OnOk result ((q : ℕ × ℕ) → contains block_cmp starts.new q ≡ true → (contains block_cmp starts.old q ≡ true) ⊎ IsStartOf all.now ns size last q) }
    ensures whole { OnOk result ((position : ℕ) → group_of position ≡ group → HasStartsAt all.now ns size last (contains block_cmp starts.new) position) }
{
    let (first, end) = all.positions_of(group);
    for position in first..end {
        add_series(all, position, ns, size, last, starts)?;
    }
    Ok(())
}

// The same, of the series at the position.
fn add_series(
    all: &AllSeries,
    position: usize,
    ns: u8,
    size: u64,
    last: u64,
    starts: &mut BTreeSet<(u8, u64)>,
) -> Result<(), Memory>
    requires size { 0 < size }
    requires at { (s : SeriesKey) × IsAt all.now position s }
    ensures kept { OnOk result ((q : ℕ × ℕ) → contains block_cmp starts.old q ≡ true → contains block_cmp starts.new q ≡ true) }
    ensures held { OnOk result ((q : ℕ × ℕ) → contains block_cmp starts.new q ≡ true → (contains block_cmp starts.old q ≡ true) ⊎ IsStartOf all.now ns size last q) }
    ensures whole { OnOk result (HasStartsAt all.now ns size last (contains block_cmp starts.new) position) }
{
    let mut low = 0;
    while let Some(spot) = all.within_at(position, ns, low, last) {
        let start = size * (spot.t / size);
        starts.insert((ns, start))?;
        match start.checked_add(size) {
            Some(end) => low = end,
            None => return Ok(()),
        }
    }
    Ok(())
}

// The blocks of a set, which ascend.
pub(crate) fn listed(alloc: Global, starts: &BTreeSet<(u8, u64)>) -> Result<Vec<(u8, u64)>, Memory>
    ensures same { IfOk result (λ blocks. blocks.items ≡ starts.now.keys) }
    ensures ordered { OnOk result (IsOrdered block_cmp starts.now) }
{
    let mut blocks = Vec::new(alloc);
    for start in starts {
        blocks.push(*start)?;
    }
    Ok(blocks)
}
