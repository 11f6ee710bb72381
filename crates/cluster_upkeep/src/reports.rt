//! How the replicas of the placement stand.
ghost use Rattle.std.specs.Prelude.{◌≡◌, ◌≢◌, ◌≤◌, ◌+◌, [], None, length, vec_len};
ghost use Rattle.std.specs.FinMap as finite;
ghost use Rattle.std.specs.Vec.{vec_capacity};
ghost use Rattle.m3_model.specs.Members.{IsIn};
ghost use Rattle.node_calls.specs.replica_exchange.MachineCalls.{HasRoom};
ghost use Rattle.node_calls.specs.session_net.Ready.{IsReady};
ghost use Rattle.node_calls.specs.session_net.Runs.{Ran};
ghost use Rattle.node_calls.specs.Halts.{HaveSameSlots};
ghost use Rattle.cluster_upkeep.specs.Status.{EndsReport, line_of, reported};
ghost use Rattle.cluster_upkeep.specs.Upkeep.{IsTold};
ghost use Rattle.cluster_upkeep.specs.declared.rows.Row.{Row as Member};

use crate::rows::{Row, all_rows};
use m3_model::{Answer, Report, Seq, StatusLine};
use m3_outside::Disk;
use node_calls::Members;
use node_calls::of_replica_calls::Replicas;
use node_calls::of_replica_exchange::Slot;
use std::alloc::Global;

// The line of a replica that reported so.
fn line_of(row: Row, report: Report) -> StatusLine
    ensures { result ≡ line_of row report }
{
    StatusLine {
        buffered: report.buffered,
        fence: report.fence,
        node: row.slot.node,
        segments: report.segments,
        shard: row.slot.shard,
        snapshot: report.snapshot,
        standing: report.standing,
        state: row.state,
        volumes: report.volumes,
    }
}

// What the replica at the slot, which is there, says of itself.
fn report_one<D: Disk>(replicas: &mut Replicas<D>, slot: Slot) -> Report
    requires there { finite.get replicas.old.members slot ≢ None }
    requires room { HasRoom 1 replicas.old.events }
    ensures { Ran D.state replicas.old (reported slot result) replicas.new }
{
    match replicas.report(slot) {
        Ok(report) => report,
        Err(_) => unreachable!(),
    }
}

// The lines of the replicas of these rows, for which there is room.
fn report_all<D: Disk>(replicas: &mut Replicas<D>, rows: &[Row], lines: &mut Vec<StatusLine>)
    requires there { (r : Member) → IsIn rows.now r → finite.get replicas.old.members r.slot ≢ None }
    requires room { HasRoom (length rows.now) replicas.old.events }
    requires reserved { vec_len lines.old + length rows.now ≤ vec_capacity lines.old }
    requires none { lines.old.items ≡ [] }
    ensures { EndsReport D.state rows.now lines.new.items replicas.old replicas.new }
{
    for row in rows {
        let report = report_one(replicas, row.slot);
        lines.push_reserved(line_of(*row, report));
    }
}

/// The moment, the version of the placement, and one line of each of its replicas, by shard and then by the name of its node: what it
/// says of itself, with the state in which the node has the shard. `Memory` says that memory was wanted for the answer, and `Full` that
/// the list lacks room for one event for each replica: then none was asked, and nothing changes.
pub fn status<D: Disk>(members: &mut Members<D>, alloc: Global) -> Answer
    requires ready { IsReady members.old.net.state members.old.net.replicas members.old.net.bag }
    ensures told { IsTold D.state members.old result members.new }
    ensures ready { IsReady members.new.net.state members.new.net.replicas members.new.net.bag }
    ensures past { members.new.past.items ≡ members.old.past.items }
    ensures same_slots { HaveSameSlots members.old.net.replicas members.new.net.replicas }
{
    let Ok(rows) = all_rows(alloc, &members.net.state.place) else {
        return Answer::Memory;
    };
    if !members.net.replicas.has_room(rows.len() as u64) {
        return Answer::Full;
    }
    let Ok(mut lines) = Vec::with_capacity(alloc, rows.len()) else {
        return Answer::Memory;
    };
    report_all(&mut members.net.replicas, rows.as_slice(), &mut lines);
    Answer::Status {
        now: members.net.state.rules.now,
        replicas: Seq::from_vec(lines),
        version: members.net.state.place.version,
    }
}
