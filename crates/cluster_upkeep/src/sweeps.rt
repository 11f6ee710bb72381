//! Sweeps: each replica of the placement is asked for the same, by shard and then by name.
ghost use Rattle.std.specs.Prelude.{◌≡◌, ◌≢◌, ◌<◌, ◌*◌, [], None, length};
ghost use Rattle.std.specs.FinMap as finite;
ghost use Rattle.std.specs.List.{All};
ghost use Rattle.m3_model.specs.Members.{IsIn};
ghost use Rattle.cluster_core.specs.Earlier.{HasClock};
ghost use Rattle.cluster_core.specs.declared.event.StepCall.TheVariants as call;
ghost use Rattle.node_calls.specs.replica_exchange.MachineCalls.{HasRoom};
ghost use Rattle.node_calls.specs.session_net.Ready.{IsReady};
ghost use Rattle.node_calls.specs.Halts.{HaveSameSlots};
ghost use Rattle.cluster_upkeep.specs.Findings.{HasRoomFor};
ghost use Rattle.cluster_upkeep.specs.Sweeps.{EndsSweep, HasSaid, call_by};
ghost use Rattle.cluster_upkeep.specs.Upkeep.{IsSwept};
ghost use Rattle.cluster_upkeep.specs.declared.rows.Row.{Row as Member};

use crate::findings::Findings;
use crate::rows::{Row, all_rows};
use m3_model::{Answer, Reason, Rules};
use m3_outside::Disk;
use node_calls::Members;
use node_calls::of_replica_calls::Replicas;
use node_calls::of_replica_exchange::{CallErr, Slot};
use std::alloc::Global;

// What all replicas are asked for.
#[derive(Clone, Copy)]
pub(crate) enum Job {
    Tick,
    Flush,
    Snapshot,
}

// Has the replica at the slot, which is there, take away what has expired.
fn tick_one<D: Disk>(replicas: &mut Replicas<D>, slot: Slot, rules: &Rules) -> Result<u64, Reason>
    requires clock { HasClock replicas.old.events rules.now }
    requires there { finite.get replicas.old.members slot ≢ None }
    requires room { HasRoom 2 replicas.old.events }
    ensures { HasSaid D.state slot (call.Tick rules.entry.now) result replicas.old replicas.new }
{
    match replicas.tick(slot, rules) {
        Ok(count) => Ok(count),
        Err(CallErr::Refused(why)) => Err(why),
        Err(CallErr::Full) => unreachable!(),
    }
}

// Has it write the blocks that have ended as volumes.
fn flush_one<D: Disk>(replicas: &mut Replicas<D>, slot: Slot, rules: &Rules) -> Result<u64, Reason>
    requires clock { HasClock replicas.old.events rules.now }
    requires sizes { All (λ space. 0 < space.block) rules.now.spaces }
    requires there { finite.get replicas.old.members slot ≢ None }
    requires room { HasRoom 2 replicas.old.events }
    ensures { HasSaid D.state slot (call.Flush rules.entry.now) result replicas.old replicas.new }
{
    match replicas.flush(slot, rules) {
        Ok(count) => Ok(count),
        Err(CallErr::Refused(why)) => Err(why),
        Err(CallErr::Full) => unreachable!(),
    }
}

// Has it save what is in memory.
fn snapshot_one<D: Disk>(replicas: &mut Replicas<D>, slot: Slot) -> Result<u64, Reason>
    requires there { finite.get replicas.old.members slot ≢ None }
    requires room { HasRoom 2 replicas.old.events }
    ensures { HasSaid D.state slot call.Snapshot result replicas.old replicas.new }
{
    match replicas.snapshot(slot) {
        Ok(number) => Ok(number),
        Err(CallErr::Refused(why)) => Err(why),
        Err(CallErr::Full) => unreachable!(),
    }
}

// Has it do the job.
fn run_one<D: Disk>(
    replicas: &mut Replicas<D>,
    slot: Slot,
    job: Job,
    rules: &Rules,
) -> Result<u64, Reason>
    requires clock { HasClock replicas.old.events rules.now }
    requires sizes { All (λ space. 0 < space.block) rules.now.spaces }
    requires there { finite.get replicas.old.members slot ≢ None }
    requires room { HasRoom 2 replicas.old.events }
    ensures { HasSaid D.state slot (call_by job rules.entry.now) result replicas.old replicas.new }
{
    match job {
        Job::Tick => tick_one(replicas, slot, rules),
        Job::Flush => flush_one(replicas, slot, rules),
        Job::Snapshot => snapshot_one(replicas, slot),
    }
}

// Has the replicas of these rows do the job, one after the other, and notes what each says.
fn run_all<D: Disk>(
    replicas: &mut Replicas<D>,
    rules: &Rules,
    job: Job,
    rows: &[Row],
    findings: &mut Findings,
)
    requires clock { HasClock replicas.old.events rules.now }
    requires sizes { All (λ space. 0 < space.block) rules.now.spaces }
    requires there { (r : Member) → IsIn rows.now r → finite.get replicas.old.members r.slot ≢ None }
    requires room { HasRoom (2 * length rows.now) replicas.old.events }
    requires counts { HasRoomFor (length rows.now) findings.old }
    requires none_done { findings.old.done.items ≡ [] }
    requires none_failed { findings.old.failed.items ≡ [] }
    ensures { EndsSweep D.state (call_by job rules.entry.now) rows.now findings.new.done.items findings.new.failed.items replicas.old replicas.new }
{
    for row in rows {
        let said = run_one(replicas, row.slot, job, rules);
        findings.add(row.slot, said);
    }
}

// Has each replica of the placement do the job.
fn sweep<D: Disk>(members: &mut Members<D>, alloc: Global, job: Job) -> Answer
    requires ready { IsReady members.old.net.state members.old.net.replicas members.old.net.bag }
    ensures swept { IsSwept D.state (call_by job members.old.net.state.rules) members.old result members.new }
    ensures ready { IsReady members.new.net.state members.new.net.replicas members.new.net.bag }
    ensures past { members.new.past.items ≡ members.old.past.items }
    ensures same_slots { HaveSameSlots members.old.net.replicas members.new.net.replicas }
{
    let Ok(rows) = all_rows(alloc, &members.net.state.place) else {
        return Answer::Memory;
    };
    if !members.net.replicas.has_room(2 * rows.len() as u64) {
        return Answer::Full;
    }
    let Ok(mut findings) = Findings::with_room(alloc, rows.len()) else {
        return Answer::Memory;
    };
    run_all(
        &mut members.net.replicas,
        &members.net.state.rules,
        job,
        rows.as_slice(),
        &mut findings,
    );
    findings.answer()
}

/// Each replica of the placement takes away what has expired by the present rules. `Swept` says of each, by shard and then by the
/// name of its node, how many keys it lost, or why it refused. `Memory` says that memory was wanted for the answer, and `Full` that the
/// list lacks room for two events for each replica: then none was asked, and nothing changes.
pub fn tick<D: Disk>(members: &mut Members<D>, alloc: Global) -> Answer
    requires ready { IsReady members.old.net.state members.old.net.replicas members.old.net.bag }
    ensures swept { IsSwept D.state (call.Tick members.old.net.state.rules) members.old result members.new }
    ensures ready { IsReady members.new.net.state members.new.net.replicas members.new.net.bag }
    ensures past { members.new.past.items ≡ members.old.past.items }
    ensures same_slots { HaveSameSlots members.old.net.replicas members.new.net.replicas }
{
    sweep(members, alloc, Job::Tick)
}

/// Each replica of the placement writes a volume for each block that has ended by the present rules and has points in memory. `Swept`
/// says of each, by shard and then by the name of its node, how many volumes it wrote, or why it refused. `Memory` and `Full` are as in
/// `tick`.
pub fn flush<D: Disk>(members: &mut Members<D>, alloc: Global) -> Answer
    requires ready { IsReady members.old.net.state members.old.net.replicas members.old.net.bag }
    ensures swept { IsSwept D.state (call.Flush members.old.net.state.rules) members.old result members.new }
    ensures ready { IsReady members.new.net.state members.new.net.replicas members.new.net.bag }
    ensures past { members.new.past.items ≡ members.old.past.items }
    ensures same_slots { HaveSameSlots members.old.net.replicas members.new.net.replicas }
{
    sweep(members, alloc, Job::Flush)
}

/// Each replica of the placement saves what it has in memory as a snapshot, which takes the place of older ones and of its log: this
/// is one segment without chunks then. `Swept` says of each, by shard and then by the name of its node, the number of its snapshot, or why
/// it refused. `Memory` and `Full` are as in `tick`.
pub fn snapshot<D: Disk>(members: &mut Members<D>, alloc: Global) -> Answer
    requires ready { IsReady members.old.net.state members.old.net.replicas members.old.net.bag }
    ensures swept { IsSwept D.state call.Snapshot members.old result members.new }
    ensures ready { IsReady members.new.net.state members.new.net.replicas members.new.net.bag }
    ensures past { members.new.past.items ≡ members.old.past.items }
    ensures same_slots { HaveSameSlots members.old.net.replicas members.new.net.replicas }
{
    sweep(members, alloc, Job::Snapshot)
}
