//! Calls of replicas that are there, where the list has room for them.
ghost use Rattle.std.specs.Prelude.{◌≢◌, ⊤, None, IfErr};
ghost use Rattle.std.specs.FinMap as finite;
ghost use Rattle.std.specs.Option.{option_copied};
ghost use Rattle.session_net.specs.cluster_core.Earlier.{HasPage};
ghost use Rattle.session_net.specs.cluster_core.declared.event.StepCall.TheVariants as call;
ghost use Rattle.session_net.specs.cluster_core.declared.event.StepReply.TheVariants as reply;
ghost use Rattle.session_net.specs.replica_exchange.MachineCalls.{HasRoom};
ghost use Rattle.peer_boot.specs.Tries.{IsCalled, IsMergeReason};

use m3_model::{Key, Page, Reason};
use session_net::Replicas;
use session_net::of_m3_outside::Disk;
use session_net::of_replica_exchange::{CallErr, Slot};

/// Raises the fence of the replica at the slot to the version, on its disk.
pub(crate) fn fence_once<D: Disk>(
    replicas: &mut Replicas<D>,
    slot: Slot,
    version: u64,
) -> Result<(), Reason>
    requires there { finite.get replicas.old.members slot ≢ None }
    requires room { HasRoom 2 replicas.old.events }
    ensures { IsCalled D.state slot.node slot.shard (call.Fence version) (λ (u : ⊤). reply.Done) replicas.old replicas.new result }
{
    match replicas.fence(slot, version) {
        Ok(()) => Ok(()),
        Err(CallErr::Refused(why)) => Err(why),
        Err(CallErr::Full) => unreachable!(),
    }
}

/// Has the replica at the slot give the page above the key.
pub(crate) fn page_once<D: Disk>(
    replicas: &mut Replicas<D>,
    slot: Slot,
    after: Option<&Key>,
) -> Result<Page, Reason>
    requires there { finite.get replicas.old.members slot ≢ None }
    requires room { HasRoom 2 replicas.old.events }
    ensures { IsCalled D.state slot.node slot.shard (call.Page (option_copied after.entry)) (λ page. reply.Paged page) replicas.old replicas.new result }
{
    match replicas.page(slot, after) {
        Ok(page) => Ok(page),
        Err(CallErr::Refused(why)) => Err(why),
        Err(CallErr::Full) => unreachable!(),
    }
}

/// Has the replica at the slot merge a page that one of its shard gave, and answers how many points were new to it.
pub(crate) fn merge_once<D: Disk>(
    replicas: &mut Replicas<D>,
    slot: Slot,
    page: &Page,
) -> Result<u64, Reason>
    requires there { finite.get replicas.old.members slot ≢ None }
    requires room { HasRoom 2 replicas.old.events }
    requires given { HasPage replicas.old.events slot.shard page.now }
    ensures called { IsCalled D.state slot.node slot.shard (call.Merge page.now) (λ n. reply.Count n) replicas.old replicas.new result }
    ensures reasons { IfErr result IsMergeReason }
{
    replicas.know();
    match replicas.merge(slot, page) {
        Ok(risen) => Ok(risen),
        Err(CallErr::Refused(why)) => Err(why),
        Err(CallErr::Full) => unreachable!(),
    }
}
