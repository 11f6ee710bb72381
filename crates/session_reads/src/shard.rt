//! The read of one shard, from its start in the list to its end.
ghost use Rattle.std.specs.Prelude.{◌≡◌, ◌<◌, ◌≤◌, ◌+◌, ◌*◌, [], ◌∷◌, length, IfOk, IfErr, nat_le};
ghost use Rattle.m3_model.specs.Reads.{space_picked};
ghost use Rattle.session_net.specs.cluster_core.Earlier.{HasClock, HasShard};
ghost use Rattle.session_net.specs.cluster_core.Legal.{IsFetched};
ghost use Rattle.session_net.specs.cluster_core.declared.event.Event.TheVariants as event;
ghost use Rattle.session_net.specs.event_book.Lists.{most_entries};
ghost use Rattle.session_net.specs.replica_exchange.MachineCalls.{HasRoom};
ghost use Rattle.session_net.specs.Outcomes.{AreCountedOnce, IsShortOf};
ghost use Rattle.session_net.specs.Reads.{most_added};
ghost use Rattle.session_net.specs.Tallies.{HasRoom as Counts};
ghost use Rattle.session_net.specs.Ready.{IsCallable};
ghost use Rattle.session_net.specs.Runs.{Ran};
ghost use Rattle.session_reads.specs.Gathering.{wish_of, IsShardRead, IsUnread};

use crate::ask::{Asking, ask_nodes};
use m3_model::{MetaState, Pick, Seq, Series};
use m3_outside::Disk;
use session_net::of_event_trail::EventView;
use session_net::of_net_plan::Fates;
use session_net::of_placement_core::counted;
use session_net::{Replicas, SessionErr, Tally, add};
use std::alloc::Global;

// What was given: the join of all answers, and whether at least a majority of each shard answered.
#[derive(Drop)]
pub(crate) struct Gave {
    pub(crate) series: Seq<Series>,
    pub(crate) whole: bool,
}

// Adds the FetchStart of a shard to the list, which has room for it, and gives its position.
fn start<D: Disk>(
    replicas: &mut Replicas<D>,
    state: &MetaState,
    asking: &Asking,
    pick: &Pick,
    shard: u32,
) -> u64
    requires clock { HasClock replicas.old.events state.now.rules }
    requires shard { HasShard replicas.old.events state.now.place.version shard }
    requires room { HasRoom 1 replicas.old.events }
    ensures position { result ≡ length replicas.old.events }
    ensures ran { Ran D.state replicas.old (event.FetchStart state.entry.now.place.version shard state.entry.now.rules pick.now asking.now.from asking.now.to ∷ []) replicas.new }
{
    let version = state.place.version;
    let event = EventView::fetch_start(version, shard, &state.rules, pick, asking.from, asking.to);
    add(replicas, &event)
}

// Adds the FetchDone of the FetchStart at this position to the list, which has room for it.
fn finish<D: Disk>(replicas: &mut Replicas<D>, start: u64, nodes: &Seq<u8>, series: &Seq<Series>)
    requires ends { IsFetched replicas.old.events start nodes.now series.now }
    requires room { HasRoom 1 replicas.old.events }
    ensures { Ran D.state replicas.old (event.FetchDone start nodes.now series.now ∷ []) replicas.new }
{
    let done = EventView::fetch_done(start, nodes, series);
    add(replicas, &done);
}

// Ends the read of the shard that began at this position, where enough nodes answered: then the list has its FetchDone.
fn settle<D: Disk>(
    replicas: &mut Replicas<D>,
    start: u64,
    shard: u32,
    asking: &Asking,
    tally: Tally,
    joined: Seq<Series>,
) -> Result<Gave, SessionErr>
    requires ends { IsFetched replicas.old.events start tally.answered.items joined }
    requires room { HasRoom 1 replicas.old.events }
    ensures ok { IfOk result (λ gave. (gave.series ≡ joined) × (asking.now.quorum.needed ≤ length tally.answered.items) × (gave.whole ≡ nat_le asking.now.quorum.majority (length tally.answered.items))
        × Ran D.state replicas.old (event.FetchDone start tally.answered.items gave.series ∷ []) replicas.new) }
    ensures err { IfErr result (λ e. IsShortOf asking.now.quorum.needed shard tally.answered.items tally.reasons.items e × (replicas.new ≡ replicas.old)) }
{
    if tally.answered.len() < asking.quorum.needed as usize {
        return Err(tally.too_few(shard, asking.quorum.needed));
    }
    let whole = asking.quorum.majority as usize <= tally.answered.len();
    let Tally { answered, .. } = tally;
    let nodes = Seq::from_vec(answered);
    finish(replicas, start, &nodes, &joined);
    Ok(Gave {
        series: joined,
        whole,
    })
}

// Whether the list has room for all that the read of so many nodes may add.
fn fits<D: Disk>(replicas: &Replicas<D>, nodes: usize) -> bool
    ensures { result ≡ nat_le (length replicas.now.events + (2 + 4 * nodes)) most_entries }
{
    replicas.has_room((nodes as u64).saturating_mul(4).saturating_add(2))
}

// Reads one shard over these nodes, which are all that count for it.
fn read_nodes<D: Disk>(
    alloc: Global,
    replicas: &mut Replicas<D>,
    state: &MetaState,
    fates: &Fates,
    asking: &Asking,
    pick: &Pick,
    shard: u32,
    nodes: &[u8],
    mut tally: Tally,
) -> Result<Gave, SessionErr>
    requires ready { IsCallable state.now replicas.old [] }
    requires known { space_picked pick.now < length state.now.rules.spaces }
    requires shard { shard < length state.now.place.shards }
    requires counted { AreCountedOnce state.now.place shard nodes.now }
    requires room { HasRoom (most_added nodes.now) replicas.old.events }
    requires counts { Counts (length nodes.now) tally }
    requires none_answered { tally.answered.items ≡ [] }
    requires none_refused { tally.reasons.items ≡ [] }
    ensures ok { IfOk result (λ gave. IsShardRead D.state state.entry.now fates.now asking.now.id (wish_of pick.now asking.now) shard asking.now.quorum.needed asking.now.quorum.majority gave.series gave.whole replicas.old replicas.new) }
    ensures err { IfErr result (IsUnread D.state state.entry.now fates.now asking.now.id (wish_of pick.now asking.now) shard asking.now.quorum.needed replicas.old replicas.new) }
{
    let position = start(replicas, state, asking, pick, shard);
    let mut joined = Seq::new(alloc);
    ask_nodes(
        alloc,
        replicas,
        fates,
        state,
        asking,
        pick,
        shard,
        nodes,
        &mut tally,
        &mut joined,
    )?;
    settle(replicas, position, shard, asking, tally, joined)
}

// Reads one shard: its FetchStart comes to the list first, then what each message to a node that counts brings, and at
// the end the FetchDone with the nodes that answered and the join of their answers, where there are enough.
pub(crate) fn ask_shard<D: Disk>(
    alloc: Global,
    replicas: &mut Replicas<D>,
    state: &MetaState,
    fates: &Fates,
    asking: &Asking,
    pick: &Pick,
    shard: u32,
) -> Result<Gave, SessionErr>
    requires ready { IsCallable state.now replicas.old [] }
    requires known { space_picked pick.now < length state.now.rules.spaces }
    requires shard { shard < length state.now.place.shards }
    ensures ok { IfOk result (λ gave. IsShardRead D.state state.entry.now fates.now asking.now.id (wish_of pick.now asking.now) shard asking.now.quorum.needed asking.now.quorum.majority gave.series gave.whole replicas.old replicas.new) }
    ensures err { IfErr result (IsUnread D.state state.entry.now fates.now asking.now.id (wish_of pick.now asking.now) shard asking.now.quorum.needed replicas.old replicas.new) }
{
    let nodes = counted(alloc, &state.place, shard)?;
    let tally = Tally::with_room(alloc, nodes.len())?;
    if !fits(replicas, nodes.len()) {
        return Err(SessionErr::Full);
    }
    read_nodes(
        alloc,
        replicas,
        state,
        fates,
        asking,
        pick,
        shard,
        nodes.as_slice(),
        tally,
    )
}
