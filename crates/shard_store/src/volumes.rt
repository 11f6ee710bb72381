//! Lists of the volumes that a store knows, by namespace, start and number.
ghost use Rattle.std.specs.Prelude.{◌≡◌, ◌≤◌, ◌<◌, ◌++◌, ◌∷◌, List, length, map, take, drop, vec_len, vec_capacity, IfOk};
ghost use Rattle.std.specs.Ordering.{is_lt};
ghost use Rattle.m3_model.specs.declared.point.Series.{Series};
ghost use Rattle.store_log.specs.listed_volumes.volume_bytes.Heads.{head_of};
ghost use Rattle.shard_open.specs.Loads.{known_of};
ghost use Rattle.store_log.specs.snapshot_steps.volume_steps.KnownLists.{head_cmp, is_one_of, with_volume, without_volumes};
ghost use Rattle.store_log.specs.listed_volumes.Listed.{known_as, known_in};

use m3_model::Memory;
use shard_open::OpenVolume;
use std::alloc::Global;
use store_log::of_listed_volumes::{ListedVolume, list_volume};
use store_log::of_volume_bytes::Head;

// The volumes, as they were loaded.
pub(crate) fn listed(alloc: Global, opened: &[OpenVolume]) -> Result<Vec<ListedVolume>, Memory>
    ensures { IfOk result (λ listed. known_in listed.items ≡ map known_of opened.now) }
{
    let mut listed = Vec::new(alloc);
    for volume in opened {
        listed.push(list_volume(alloc, volume.volume.head, &volume.rows)?)?;
    }
    Ok(listed)
}

// The heads of the volumes.
pub(crate) fn heads(alloc: Global, listed: &[ListedVolume]) -> Result<Vec<Head>, Memory>
    ensures { IfOk result (λ heads. heads.items ≡ map (λ v. v.head) listed.now) }
{
    let mut heads = Vec::new(alloc);
    for volume in listed {
        heads.push(volume.head)?;
    }
    Ok(heads)
}

// Whether the one volume stands before the other: by namespace, start and number.
fn is_before(one: &Head, other: &Head) -> bool
    ensures { result ≡ is_lt (head_cmp (head_of one.now) (head_of other.now)) }
{
    if one.ns != other.ns {
        return one.ns < other.ns;
    }
    if one.start != other.start {
        return one.start < other.start;
    }
    one.number < other.number
}

// How many volumes stand before the one of this head.
fn position_of(listed: &[ListedVolume], head: &Head) -> usize
    ensures inside { result ≤ length listed.now }
    ensures before { (rows : List Series) → known_in (take result listed.now) ++ (record { head = head_of head.now; rows = rows } ∷ known_in (drop result listed.now)) ≡ with_volume (record { head = head_of head.now; rows = rows }) (known_in listed.now) }
{
    for (position, volume) in listed.iter().enumerate() {
        if !is_before(&volume.head, head) {
            return position;
        }
    }
    listed.len()
}

// Adds the volume in its place. Takes no memory.
pub(crate) fn add(listed: &mut Vec<ListedVolume>, volume: ListedVolume)
    requires { vec_len listed.old < vec_capacity listed.old }
    ensures { known_in listed.new.items ≡ with_volume (known_as volume) (known_in listed.old.items) }
{
    let position = position_of(listed, &volume.head);
    listed.insert(position, volume).unwrap();
}

// Whether it is one of these volumes.
fn is_among(head: &Head, heads: &[Head]) -> bool
    ensures { (rows : List Series) → result ≡ is_one_of heads.now (record { head = head_of head.now; rows = rows }) }
{
    for old in heads {
        if head.ns == old.ns && head.start == old.start && head.number == old.number {
            return true;
        }
    }
    false
}

// Takes these volumes off the list. Takes no memory.
pub(crate) fn take_off(listed: &mut Vec<ListedVolume>, heads: &[Head])
    ensures { known_in listed.new.items ≡ without_volumes heads.now (known_in listed.old.items) }
{
    listed.retain(|volume| !is_among(&volume.head, heads));
}
