//! Which placement may follow another.
ghost use Rattle.std.specs.Prelude.{◌≡◌, ◌≢◌, ◌↔◌, ◌<◌, ℕ, IsTrue, IfSome, IfNone, length, slice_get, slice_index_or, Some};
ghost use Rattle.placement_core.specs.Shards.{Shard};
ghost use Rattle.placement_core.specs.Steps.{IsDoneList, KeepsNames, IsShardStep, IsStep, done_at};

use crate::shard_step::is_shard_step;
use m3_model::{Assignment, Instance, Placement, Seq};

fn is_done_list(shards: usize, done: &[(u32, u8)]) -> bool
    ensures { IsTrue result ↔ IsDoneList shards done.now }
{
    let mut least = 0;
    for (shard, _) in done {
        let shard = *shard as usize;
        if shard < least || shards <= shard {
            return false;
        }
        least = shard + 1;
    }
    true
}

fn keeps_names(old: &[Instance], next: &[Instance]) -> bool
    ensures { IsTrue result ↔ KeepsNames old.now next.now }
{
    for (position, was) in old.iter().enumerate() {
        match next.get(position) {
            Some(is) if is.name.equals(was.name.as_str()) => {}
            _ => return false,
        }
    }
    true
}

fn joining_of(done: &[(u32, u8)], at: usize, number: usize) -> Option<u8>
    ensures found { IfSome result (λ node. (at < length done.now) × (slice_index_or done.now at (0, 0) ≡ (number, node))) }
    ensures other { IfNone result (at < length done.now → (slice_index_or done.now at (0, 0)).0 ≢ number) }
{
    match done.get(at) {
        Some(&(shard, node)) if shard as usize == number => Some(node),
        _ => None,
    }
}

fn are_shard_steps(
    version: u64,
    old: &[Seq<Assignment>],
    next: &[Seq<Assignment>],
    done: &[(u32, u8)],
) -> bool
    requires count { length next.now ≡ length old.now }
    requires done { IsDoneList (length old.now) done.now }
    ensures { IsTrue result ↔ ((s : ℕ) (a b : Shard) → slice_get old.now s ≡ Some a → slice_get next.now s ≡ Some b → IsShardStep version a b (done_at s done.now)) }
{
    let mut at = 0;
    for (number, was) in old.iter().enumerate() {
        let joining = joining_of(done, at, number);
        if joining.is_some() {
            at += 1;
        }
        let is = next[number].as_slice();
        if !is_shard_step(version, was.as_slice(), is, joining) {
            return false;
        }
    }
    true
}

/// Whether `next` is a step from `old`, and `done` has by ascending shard the shard and the joining node of each
/// move that it ends. Takes no memory, and time in proportion to the two placements.
///
/// A step makes the version one higher and keeps `rf`, the number of shards and the names of the earlier instances.
/// Each shard is as before, or begins a move, ends its move or has it cancelled. See M3DB's page "Placement".
pub fn is_step(old: &Placement, next: &Placement, done: &[(u32, u8)]) -> bool
    ensures { IsTrue result ↔ IsStep old.now next.now done.now }
{
    let shards = old.shards.as_slice();
    next.version.checked_sub(1) == Some(old.version)
        && next.rf == old.rf
        && keeps_names(old.instances.as_slice(), next.instances.as_slice())
        && next.shards.len() == shards.len()
        && is_done_list(shards.len(), done)
        && are_shard_steps(next.version, shards, next.shards.as_slice(), done)
}
