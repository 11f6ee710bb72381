//! Puts on the replicas of nodes.
ghost use Rattle.std.specs.Prelude.{◌≡◌, ◌≢◌, ◌<◌, ⊤, None, length};
ghost use Rattle.std.specs.FinMap as finite;
ghost use Rattle.session_net.specs.wire_bytes.Entries.{IsBounded};
ghost use Rattle.session_net.specs.cluster_core.Earlier.{HasClock, HasSend};
ghost use Rattle.session_net.specs.cluster_core.declared.event.StepReply.TheVariants as reply;
ghost use Rattle.session_net.specs.replica_exchange.MachineCalls.{HasRoom};
ghost use Rattle.session_net.specs.Brought.{Delivered, Brought};
ghost use Rattle.session_net.specs.Writes.{put_of};

use m3_model::{Fate, Point, Reason, Rules};
use session_net::Replicas;
use session_net::of_m3_outside::Disk;
use session_net::of_replica_exchange::{CallErr, CallId, Slot};

// Puts the point on the replica at the slot, which is there.
pub(crate) fn put_once<D: Disk>(
    replicas: &mut Replicas<D>,
    slot: Slot,
    id: CallId,
    rules: &Rules,
    version: u64,
    point: &Point,
) -> Result<(), Reason>
    requires clock { HasClock replicas.old.events rules.now }
    requires sent { HasSend replicas.old.events version slot.shard point.now }
    requires there { finite.get replicas.old.members slot ≢ None }
    requires room { HasRoom 2 replicas.old.events }
    requires known { point.now.ns < length rules.now.spaces }
    requires bounded { IsBounded point.now }
    ensures { Delivered D.state (λ (u : ⊤). reply.Done) slot.node slot.shard (put_of id rules.entry.now version point.now) result replicas.old replicas.new }
{
    match replicas.put(slot, id, rules, version, point) {
        Ok(()) => Ok(()),
        Err(CallErr::Refused(why)) => Err(why),
        Err(CallErr::Full) => unreachable!(),
    }
}

// Puts the point there as the message's fate has it: a message that is cut isn't delivered, and of one that is delivered
// twice the first answer is heard.
pub(crate) fn put_by_fate<D: Disk>(
    replicas: &mut Replicas<D>,
    fate: Fate,
    slot: Slot,
    id: CallId,
    rules: &Rules,
    version: u64,
    point: &Point,
) -> Result<(), Reason>
    requires clock { HasClock replicas.old.events rules.now }
    requires sent { HasSend replicas.old.events version slot.shard point.now }
    requires there { finite.get replicas.old.members slot ≢ None }
    requires room { HasRoom 4 replicas.old.events }
    requires known { point.now.ns < length rules.now.spaces }
    requires bounded { IsBounded point.now }
    ensures { Brought D.state (λ (u : ⊤). reply.Done) fate slot.node slot.shard (put_of id rules.entry.now version point.now) result replicas.old replicas.new }
{
    match fate {
        Fate::Lose | Fate::Late => Err(Reason::Cut),
        Fate::Deliver => put_once(replicas, slot, id, rules, version, point),
        Fate::Twice => {
            let heard = put_once(replicas, slot, id, rules, version, point);
            drop(put_once(replicas, slot, id, rules, version, point));
            heard
        }
    }
}
