ghost use Rattle.std.specs.Prelude.{◌≡◌, ◌<◌, length, true, false, IfOk, IfErr};
ghost use Rattle.m3_model.specs.Reads.{space_picked};
ghost use Rattle.m3_model.specs.declared.act.ReadLevel.TheVariants as read;
ghost use Rattle.m3_model.specs.declared.rules.MetaState.{MetaState as State};
ghost use Rattle.session_net.specs.Ready.{IsReady, IsCallable};
ghost use Rattle.session_net.specs.Reads.{IsReadFound, IsRefusedRead};

use crate::ask::{Asking, Quorum};
use crate::gather::gather;
use m3_model::{Pick, ReadLevel, Seq, Series};
use m3_outside::Disk;
use quorum_count::{majority, needed_read};
use session_net::of_replica_exchange::CallId;
use session_net::{Net, SessionErr};
use std::alloc::Global;

/// What a fetch found.
#[derive(Drop)]
pub struct Found {
    pub series: Seq<Series>,
    /// Whether an unstrict read had fewer answers than a majority of one of the shards that it asked.
    pub short: bool,
}

// Whether a read of this level came short, by whether at least a majority of each shard answered.
fn is_short(level: ReadLevel, whole: bool) -> bool
    ensures unstrict { result ≡ true → level ≡ read.Unstrict }
    ensures not_whole { result ≡ true → whole ≡ false }
    ensures short { level ≡ read.Unstrict → whole ≡ false → result ≡ true }
{
    match level {
        ReadLevel::Unstrict => !whole,
        _ => false,
    }
}

/// Sends a client's read to every node that counts for the shard of the identifier, or for each shard ascending where
/// matchers pick the series, and joins all answers: of the picked series the points with `from <= t < to` that haven't
/// expired, of two at one key the higher. The pick's namespace is one of the rules.
///
/// The list gets the FetchStart of a shard, then what each message brings, and then the FetchDone with the nodes that
/// answered and the join of their answers, before the next shard begins. A message whose fate is to be lost or late isn't
/// delivered, and its node counts as one that didn't answer.
///
/// # Errors
///
/// `Consistency` names the first shard of which fewer nodes than the level needs answered, and the others of its nodes
/// with their reasons; that shard has no FetchDone, and later shards aren't asked. After `Memory` some first shards were
/// read, and of the next one some first nodes may have been asked. `Full` where the list has no room for all that the read of
/// the next shard may add, which isn't begun.
pub fn fetch<D: Disk>(
    net: &mut Net<D>,
    alloc: Global,
    id: CallId,
    pick: &Pick,
    from: u64,
    to: u64,
    level: ReadLevel,
) -> Result<Found, SessionErr>
    requires ready { IsCallable net.old.state net.old.replicas net.old.bag }
    requires known { space_picked pick.now < length net.old.state.rules.spaces }
    ensures callable { (s : State) → IsCallable s net.old.replicas net.old.bag → IsCallable s net.new.replicas net.new.bag }
    ensures ready { (s : State) → IsReady s net.old.replicas net.old.bag → IsReady s net.new.replicas net.new.bag }
    ensures ok { IfOk result (λ found. IsReadFound D.state net.old id (record { pick = pick.now; from = from; to = to }) level found.series found.short net.new) }
    ensures err { IfErr result (IsRefusedRead D.state net.old id (record { pick = pick.now; from = from; to = to }) level net.new) }
    ensures state { net.new.state ≡ net.old.state }
    ensures fates { net.new.fates ≡ net.old.fates }
    ensures bag { net.new.bag ≡ net.old.bag }
{
    let rf = net.state.place.rf;
    let quorum = Quorum {
        needed: needed_read(level, rf),
        majority: majority(rf),
    };
    let asking = Asking {
        id,
        from,
        to,
        quorum,
    };
    let gave = gather(
        alloc,
        &mut net.replicas,
        &net.state,
        &net.fates,
        &asking,
        pick,
    )?;
    Ok(Found {
        series: gave.series,
        short: is_short(level, gave.whole),
    })
}
