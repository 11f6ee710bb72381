//! Streams: a former replica is fenced, and then gives its pages, each of which the joining one merges before the next is asked for.
ghost use Rattle.std.specs.Prelude.{◌≡◌, ◌≢◌, None};
ghost use Rattle.std.specs.FinMap as finite;
ghost use Rattle.std.specs.Option.{option_copied};
ghost use Rattle.session_net.specs.cluster_core.Earlier.{HasPage};
ghost use Rattle.session_net.specs.replica_exchange.MachineCalls.{HasRoom};
ghost use Rattle.peer_boot.specs.Tries.{IsPageTried, IsStreamTried, IsTakenIn};

use crate::calls::{fence_once, merge_once, page_once};
use crate::merged::Cover;
use crate::stream_err::StreamErr;
use m3_model::{Key, Page};
use session_net::Replicas;
use session_net::of_m3_outside::Disk;
use session_net::of_replica_exchange::Slot;

// Has the replica at the slot merge the page, and gives the key from which the page goes on.
fn take_in<D: Disk>(
    replicas: &mut Replicas<D>,
    to: Slot,
    page: Page,
) -> Result<Option<Key>, StreamErr>
    requires there { finite.get replicas.old.members to ≢ None }
    requires room { HasRoom 2 replicas.old.events }
    requires given { HasPage replicas.old.events to.shard page }
    ensures { IsTakenIn D.state to.shard to.node page replicas.old replicas.new result }
{
    match merge_once(replicas, to, &page) {
        Ok(_) => {
            let Page { next, .. } = page;
            Ok(next)
        }
        Err(why) => Err(StreamErr::To(why)),
    }
}

// Has the former replica give the page above the key and the joining one merge it, and gives the key from which it goes on.
fn hand_over<D: Disk>(
    replicas: &mut Replicas<D>,
    from: Slot,
    to: Slot,
    after: Option<&Key>,
) -> Result<Option<Key>, StreamErr>
    requires one_shard { from.shard ≡ to.shard }
    requires from_there { finite.get replicas.old.members from ≢ None }
    requires to_there { finite.get replicas.old.members to ≢ None }
    ensures { IsPageTried D.state from.shard from.node to.node (option_copied after.entry) replicas.old replicas.new result }
{
    if !replicas.has_room(4) {
        return Err(StreamErr::Full);
    }
    match page_once(replicas, from, after) {
        Ok(page) => take_in(replicas, to, page),
        Err(why) => Err(StreamErr::From(why)),
    }
}

/// Has a former replica stream whole to the one that joins its shard by a move which began at this version: its fence is raised
/// to that, on its disk, and then it gives its pages from the first on, up to the one that doesn't go on. Each is merged before
/// the next is asked for.
///
/// # Errors
///
/// `From` where the former replica refused its fence or a page, `To` where the joining one refused to merge a page, and `Full` where
/// the list of events lacks room for four events. The fence and what was merged stay.
pub fn stream_from<D: Disk>(
    replicas: &mut Replicas<D>,
    from: Slot,
    to: Slot,
    version: u64,
) -> Result<Cover, StreamErr>
    requires one_shard { from.shard ≡ to.shard }
    requires from_there { finite.get replicas.old.members from ≢ None }
    requires to_there { finite.get replicas.old.members to ≢ None }
    ensures { IsStreamTried D.state from.shard from.node to.node version replicas.old replicas.new result }
{
    if !replicas.has_room(4) {
        return Err(StreamErr::Full);
    }
    if let Err(why) = fence_once(replicas, from, version) {
        return Err(StreamErr::From(why));
    }
    let mut next = hand_over(replicas, from, to, None)?;
    while let Some(after) = next {
        next = hand_over(replicas, from, to, Some(&after))?;
    }
    Ok(Cover::of(from.node))
}
