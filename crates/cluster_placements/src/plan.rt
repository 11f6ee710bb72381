//! What a line is to make, before it takes any disk.
ghost use Rattle.std.specs.Prelude.{◌≡◌, ◌≤◌, true, IfOk, IfErr, Some, length};
ghost use Rattle.std.specs.FinMap as finite;
ghost use Rattle.m3_model.specs.Limits.{MeetsLimits};
ghost use Rattle.placement_acts.specs.Acts.{LeadsNowhere, is_step_act};
ghost use Rattle.placement_core.specs.Lawful.{IsLawful};
ghost use Rattle.placement_core.specs.Steps.{KeepsNames};
ghost use Rattle.cluster_placements.specs.Slots.{new_slots, left_slots};
ghost use Rattle.cluster_placements.specs.Steps.{IsChange, IsFitted, kept_in};

use crate::flags::with_nodes;
use crate::slots::{left_out, slots_of, together, unmanned};
use m3_model::{Act, Answer, Duplicate, Memory, Placement};
use m3_outside::Disk;
use node_calls::of_cluster_members::Members;
use node_calls::of_replica_exchange::Slot;
use placement_lines::next_placement;
use std::alloc::Global;

/// What a line is to make: the placement that comes next, and all that the cluster needs for it but its new replicas.
#[derive(Drop)]
pub struct Change {
    pub(crate) next: Placement,
    // A copy of it, for the answer.
    pub(crate) printed: Placement,
    // The slots that get a replica.
    pub(crate) new: Vec<Slot>,
    // Those whose tenures end.
    pub(crate) left: Vec<Slot>,
    // All slots that have a replica then.
    pub(crate) slots: Vec<Slot>,
    pub(crate) stopped: Vec<bool>,
}

// All that the cluster needs where this placement comes next.
fn fitted<D: Disk>(alloc: Global, members: &Members<D>, next: Placement) -> Result<Change, Memory>
    requires lawful { IsLawful next }
    requires known { IsLawful members.now.net.state.place }
    requires names { KeepsNames members.now.net.state.place.instances next.instances }
    ensures next { IfOk result (λ change. change.next ≡ next) }
    ensures fitted { IfOk result (IsFitted members.now) }
{
    let place = &members.net.state.place;
    let wanted = slots_of(alloc, &next)?;
    let new = unmanned(alloc, &members.net.replicas, wanted.as_slice())?;
    let had = slots_of(alloc, place)?;
    let left = left_out(alloc, &next, had.as_slice())?;
    let slots = together(alloc, members.slots.as_slice(), new.as_slice())?;
    let stopped = with_nodes(alloc, members.stopped.as_slice(), next.instances.len())?;
    let printed = next.copy(alloc)?;
    Ok(Change {
        next,
        printed,
        new,
        left,
        slots,
        stopped,
    })
}

impl Change {
    /// The placement that comes next.
    pub fn next(&self) -> &Placement
        ensures { result.now ≡ self.now.next }
    {
        &self.next
    }
}

/// What the line of an `add`, `drain`, `cancel`, `remove` or `replace` is to make, by the planning rules. Nothing changes.
///
/// # Errors
///
/// The answer: as the planning rules say, or want of memory.
pub fn plan_change<D: Disk>(
    members: &Members<D>,
    alloc: Global,
    act: &Act,
) -> Result<Change, Answer>
    requires lawful { IsLawful members.now.net.state.place }
    requires step { is_step_act act.now ≡ true }
    requires limits { MeetsLimits act.now }
    ensures change { IfOk result (IsChange members.now (kept_in members.now) act.now) }
    ensures refused { IfErr result (LeadsNowhere (Some members.now.net.state.place) (kept_in members.now) act.now) }
{
    let place = &members.net.state.place;
    let kept = members.past.len() + 1;
    let next = next_placement(alloc, place, kept, act)?;
    match fitted(alloc, members, next) {
        Ok(change) => Ok(change),
        Err(Memory) => Err(Answer::Memory),
    }
}
