//! The reads of shards, one after the other.
ghost use Rattle.std.specs.Prelude.{◌≡◌, ◌<◌, ◌^◌, List, [], length, IfOk, IfErr};
ghost use Rattle.m3_model.specs.Reads.{space_picked};
ghost use Rattle.m3_model.specs.declared.point.Matcher.{Matcher};
ghost use Rattle.m3_model.specs.declared.point.Pick.TheVariants as picked;
ghost use Rattle.session_net.specs.Ready.{IsCallable};
ghost use Rattle.session_net.specs.Reads.{asked_shards, IsUnfound};
ghost use Rattle.session_reads.specs.Gathering.{wish_of, IsGathered};

use crate::ask::{Asking, join_answer};
use crate::shard::{Gave, ask_shard};
use m3_model::{MetaState, Pick, Seq};
use m3_outside::Disk;
use session_net::of_net_plan::Fates;
use session_net::of_series_id::shard_of;
use session_net::{Replicas, SessionErr};
use std::alloc::Global;

// Reads all shards, one after the other, and joins what they give.
fn gather_all<D: Disk>(
    alloc: Global,
    replicas: &mut Replicas<D>,
    state: &MetaState,
    fates: &Fates,
    asking: &Asking,
    pick: &Pick,
) -> Result<Gave, SessionErr>
    requires ready { IsCallable state.now replicas.old [] }
    requires known { space_picked pick.now < length state.now.rules.spaces }
    requires few_shards { length state.now.place.shards < 2 ^ 32 }
    requires all { (wanted : List Matcher) × (pick.now ≡ picked.Match (space_picked pick.now) wanted) }
    ensures ok { IfOk result (λ gave. IsGathered D.state state.entry.now fates.now asking.now.id (wish_of pick.now asking.now) asking.now.quorum.needed asking.now.quorum.majority (asked_shards state.entry.now pick.now) gave.series gave.whole replicas.old replicas.new) }
    ensures err { IfErr result (IsUnfound D.state state.entry.now fates.now asking.now.id (wish_of pick.now asking.now) asking.now.quorum.needed replicas.old replicas.new) }
{
    let mut joined = Seq::new(alloc);
    let mut whole = true;
    for shard in 0..state.place.shards.len() as u32 {
        let gave = ask_shard(alloc, replicas, state, fates, asking, pick, shard)?;
        let Gave {
            series,
            whole: enough,
        } = gave;
        whole &= enough;
        join_answer(alloc, &mut joined, series)?;
    }
    Ok(Gave {
        series: joined,
        whole,
    })
}

// Reads the shards that are asked: that of the identifier, whose series are the answer, or all where matchers pick the
// series. It ends with the first of which fewer nodes than needed answered.
pub(crate) fn gather<D: Disk>(
    alloc: Global,
    replicas: &mut Replicas<D>,
    state: &MetaState,
    fates: &Fates,
    asking: &Asking,
    pick: &Pick,
) -> Result<Gave, SessionErr>
    requires ready { IsCallable state.now replicas.old [] }
    requires known { space_picked pick.now < length state.now.rules.spaces }
    requires some_shards { 0 < length state.now.place.shards }
    requires few_shards { length state.now.place.shards < 2 ^ 32 }
    ensures ok { IfOk result (λ gave. IsGathered D.state state.entry.now fates.now asking.now.id (wish_of pick.now asking.now) asking.now.quorum.needed asking.now.quorum.majority (asked_shards state.entry.now pick.now) gave.series gave.whole replicas.old replicas.new) }
    ensures err { IfErr result (IsUnfound D.state state.entry.now fates.now asking.now.id (wish_of pick.now asking.now) asking.now.quorum.needed replicas.old replicas.new) }
{
    match pick {
        Pick::One { id, .. } => {
            let shards = state.place.shards.len() as u32;
            let shard = shard_of(id.as_str(), state.seed, shards);
            ask_shard(alloc, replicas, state, fates, asking, pick, shard)
        }
        Pick::Match { .. } => gather_all(alloc, replicas, state, fates, asking, pick),
    }
}
