ghost use Rattle.std.specs.Prelude.{◌≡◌, ◌≢◌, ◌+◌, ◌*◌, ◌≤◌, ⊤, List, [], None, map, length, vec_len, Result as Outcome, IfOk, IfErr};
ghost use Rattle.std.specs.FinMap as finite;
ghost use Rattle.std.specs.List.{All};
ghost use Rattle.std.specs.Vec.{vec_capacity};
ghost use Rattle.session_net.specs.wire_bytes.Entries.{IsBounded};
ghost use Rattle.m3_model.specs.Members.{IsIn};
ghost use Rattle.m3_model.specs.declared.reason.Reason.{Reason as Why};
ghost use Rattle.session_net.specs.cluster_core.Earlier.{HasClock, HasSend};
ghost use Rattle.session_net.specs.cluster_core.declared.event.Event.{Event as Entry};
ghost use Rattle.net_plan.specs.declared.late_write.LateWrite.{LateWrite as Late};
ghost use Rattle.session_net.specs.replica_exchange.MachineCalls.{HasRoom};
ghost use Rattle.session_net.specs.Ready.{IsReady, IsCallable};
ghost use Rattle.m3_model.specs.declared.rules.MetaState.{MetaState as State};
ghost use Rattle.session_net.specs.Runs.{Ran, slot_at};
ghost use Rattle.session_net.specs.Deliveries.{known, outcome_of, AreDelivered, HasDelivered, IsUndelivered};

use crate::put::put_once;
use m3_model::limits::MOST_LATE_WRITES;
use m3_model::{Memory, Reason, Rules, Seq};
use net_plan::LateWrite;
use session_net::of_m3_outside::Disk;
use session_net::of_replica_exchange::{CallId, Slot};
use session_net::{Net, Replicas, SessionErr};
use std::alloc::Global;

// No outcomes yet, with room for so many.
fn room_for(alloc: Global, outcomes: usize) -> Result<Vec<(u8, u32, Option<Reason>)>, Memory>
    ensures none { IfOk result (λ made. made.items ≡ []) }
    ensures room { IfOk result (λ made. (vec_len made ≡ 0) × (outcomes ≤ vec_capacity made)) }
{
    let made = Vec::with_capacity(alloc, outcomes)?;
    Ok(made)
}

// Puts each late write on its replica, one after the other, and counts what becomes of it.
fn put_late<D: Disk>(
    replicas: &mut Replicas<D>,
    rules: &Rules,
    late: &[LateWrite],
    outcomes: &mut Vec<(u8, u32, Option<Reason>)>,
)
    requires clock { HasClock replicas.old.events rules.now }
    requires sent { (one : Late) → IsIn late.now one → HasSend replicas.old.events one.version one.shard one.point }
    requires there { (one : Late) → IsIn late.now one → finite.get replicas.old.members (slot_at one.node one.shard) ≢ None }
    requires list { HasRoom (2 * length late.now) replicas.old.events }
    requires room { vec_len outcomes.old + length late.now ≤ vec_capacity outcomes.old }
    requires none { outcomes.old.items ≡ [] }
    requires bounded { All (λ one. IsBounded one.point) late.now }
    ensures { (deliveries : List (Late × Outcome ⊤ Why)) × (puts : List Entry) × AreDelivered rules.entry.now (known rules.entry.now late.now) deliveries puts
        × Ran D.state replicas.old puts replicas.new × (outcomes.new.items ≡ map outcome_of deliveries) }
{
    for one in late {
        if (one.point.ns as usize) < rules.spaces.len() {
            let slot = Slot {
                shard: one.shard,
                node: one.node,
            };
            let id = CallId {
                client: one.client,
                number: one.number,
            };
            let said = put_once(replicas, slot, id, rules, one.version, &one.point);
            outcomes.push_reserved((one.node, one.shard, said.err()));
        }
    }
}

/// Empties the bag: each late write is put once, in the order of the bag and at its own version. Answers of each its
/// node, its shard, and the reason for which the node didn't take it, or none where it did. A late write whose namespace
/// the rules lack would be dropped without an answer; namespaces stay, so there is none.
///
/// # Errors
///
/// After `Memory` no replica was asked, and the late writes are still in the bag or all lost. `Full` where the list has no
/// room for all that this may add; nothing changes.
pub fn deliver<D: Disk>(
    net: &mut Net<D>,
    alloc: Global,
) -> Result<Seq<(u8, u32, Option<Reason>)>, SessionErr>
    requires ready { IsReady net.old.state net.old.replicas net.old.bag }
    ensures callable { (s : State) → IsCallable s net.old.replicas net.old.bag → IsCallable s net.new.replicas net.new.bag }
    ensures ready { IsReady net.new.state net.new.replicas net.new.bag }
    ensures ok { IfOk result (λ outcomes. HasDelivered D.state net.old outcomes net.new) }
    ensures err { IfErr result (IsUndelivered net.old net.new) }
    ensures state { net.new.state ≡ net.old.state }
    ensures fates { net.new.fates ≡ net.old.fates }
{
    if !net.replicas.has_room(2 * MOST_LATE_WRITES as u64) {
        return Err(SessionErr::Full);
    }
    let late = net.bag.empty()?;
    let mut outcomes = room_for(alloc, late.len())?;
    put_late(
        &mut net.replicas,
        &net.state.rules,
        late.as_slice(),
        &mut outcomes,
    );
    Ok(Seq::from_vec(outcomes))
}
