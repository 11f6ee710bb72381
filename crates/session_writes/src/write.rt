ghost use Rattle.std.specs.Prelude.{◌≡◌, ◌≢◌, ◌<◌, ◌≤◌, ◌*◌, ◌^◌, ℕ, suc, ⊤, List, [], ◌∷◌, ◌++◌, map, true, None, length, take, IfOk, IfErr, OnOk, OnErr};
ghost use Rattle.std.specs.FinMap as finite;
ghost use Rattle.session_net.specs.wire_bytes.Entries.{IsBounded};
ghost use Rattle.m3_model.specs.Members.{IsIn};
ghost use Rattle.m3_model.specs.declared.placement.Assignment.{Assignment as Member};
ghost use Rattle.m3_model.specs.Ascends.{Ascends};
ghost use Rattle.session_net.specs.cluster_core.Earlier.{HasClock, HasSend, HasShard, AreCounted};
ghost use Rattle.session_net.specs.cluster_core.Legal.{IsAck};
ghost use Rattle.session_net.specs.cluster_core.declared.event.Event.{Event as Entry};
ghost use Rattle.session_net.specs.cluster_core.declared.event.Event.TheVariants as event;
ghost use Rattle.session_net.specs.cluster_core.declared.event.StepReply.TheVariants as reply;
ghost use Rattle.placement_core.specs.Shards.{counts, nodes_of};
ghost use Rattle.session_net.specs.replica_exchange.MachineCalls.{HasRoom};
ghost use Rattle.session_net.specs.Messages.{Heard, AreHeard};
ghost use Rattle.session_net.specs.Outcomes.{NodeOutcome, told_of, answering, refusing, IsShortOf};
ghost use Rattle.session_net.specs.Ready.{IsReady, IsCallable};
ghost use Rattle.m3_model.specs.declared.rules.MetaState.{MetaState as State};
ghost use Rattle.session_net.specs.Runs.{Ran, slot_at};
ghost use Rattle.session_net.specs.Tallies.{HasRoom as Counts};
ghost use Rattle.session_net.specs.Writes.{shard_of_point, AreMembers, put_of, late_to, late_among, filled, told_if_counted, counted_among, most_added, IsSettled, IsUnsettled, IsAcknowledged, IsRefused};

use crate::put::put_by_fate;
use m3_model::{
    Assignment, Duplicate, Fate, Memory, MetaState, Point, Reason, Rules, Seq, ShardState,
    WriteLevel,
};
use net_plan::{Bag, Fates, LateWrite};
use placement_core::members;
use quorum_count::needed_write;
use session_net::of_event_trail::EventView;
use session_net::of_m3_outside::Disk;
use session_net::of_replica_exchange::{CallId, Slot};
use session_net::of_series_id::shard_of;
use session_net::{Net, Replicas, SessionErr, Tally, add, fate_to};
use std::alloc::Global;

// What the messages of one write share beside their point.
#[derive(Clone, Copy)]
struct Sending {
    id: CallId,
    shard: u32,
    version: u64,
}

// Adds the Send of the write to the list, which has room for it, and gives its position.
fn send<D: Disk>(replicas: &mut Replicas<D>, sending: &Sending, point: &Point) -> u64
    requires shard { HasShard replicas.old.events sending.now.version sending.now.shard }
    requires room { HasRoom 1 replicas.old.events }
    ensures position { result ≡ length replicas.old.events }
    ensures ran { Ran D.state replicas.old (event.Send sending.now.version sending.now.shard point.now ∷ []) replicas.new }
{
    let event = EventView::send(sending.version, sending.shard, point);
    add(replicas, &event)
}

// Holds the late ones of the messages to these members back.
fn keep_late(
    alloc: Global,
    bag: &mut Bag,
    fates: &Fates,
    sending: &Sending,
    point: &Point,
    members: &[Assignment],
) -> Result<(), Memory>
    ensures ok { OnOk result (bag.new ≡ filled bag.old (late_among fates.now sending.now.id sending.now.shard sending.now.version point.now (nodes_of members.now))) }
    ensures err { OnErr result ((k : ℕ) × (bag.new ≡ filled bag.old (late_among fates.now sending.now.id sending.now.shard sending.now.version point.now (nodes_of (take k members.now))))) }
{
    for member in members {
        if fate_to(fates, sending.id, member.node) == Fate::Late {
            keep_one(alloc, bag, sending, point, member.node)?;
        }
    }
    Ok(())
}

// Holds the message to a node back, unless the bag is full.
fn keep_one(
    alloc: Global,
    bag: &mut Bag,
    sending: &Sending,
    point: &Point,
    node: u8,
) -> Result<(), Memory>
    ensures ok { OnOk result (bag.new ≡ filled bag.old (late_to sending.now.id sending.now.shard sending.now.version point.now node ∷ [])) }
    ensures err { OnErr result (bag.new ≡ bag.old) }
{
    let late = LateWrite {
        client: sending.id.client,
        number: sending.id.number,
        node,
        shard: sending.shard,
        version: sending.version,
        point: point.copy(alloc)?,
    };
    match bag.keep(late) {
        Ok(_) => Ok(()),
        Err(_) => Err(Memory),
    }
}

// Counts what a member was told, where it counts.
fn count(tally: &mut Tally, member: &Assignment, outcome: Option<Reason>)
    requires { Counts 1 tally.old }
    ensures room { (n : ℕ) → Counts (suc n) tally.old → Counts n tally.new }
    ensures answered { (told : List NodeOutcome) → tally.old.answered.items ≡ answering told → tally.new.answered.items ≡ answering (told ++ told_if_counted member.now outcome) }
    ensures reasons { (told : List NodeOutcome) → tally.old.reasons.items ≡ refusing told → tally.new.reasons.items ≡ refusing (told ++ told_if_counted member.now outcome) }
{
    if member.state == ShardState::Available {
        tally.add(member.node, outcome);
    } else {
        drop(outcome);
    }
}

// Puts the point on the replicas of these members, one after the other, and counts what those say that count.
fn put_all<D: Disk>(
    replicas: &mut Replicas<D>,
    fates: &Fates,
    sending: &Sending,
    rules: &Rules,
    point: &Point,
    members: &[Assignment],
    tally: &mut Tally,
)
    requires clock { HasClock replicas.old.events rules.now }
    requires sent { HasSend replicas.old.events sending.now.version sending.now.shard point.now }
    requires there { (a : Member) → IsIn members.now a → finite.get replicas.old.members (slot_at a.node sending.now.shard) ≢ None }
    requires room { HasRoom (4 * length members.now) replicas.old.events }
    requires known { point.now.ns < length rules.now.spaces }
    requires bounded { IsBounded point.now }
    requires counts { Counts (length members.now) tally.old }
    requires none_answered { tally.old.answered.items ≡ [] }
    requires none_refused { tally.old.reasons.items ≡ [] }
    ensures { (heard : List (Heard ⊤)) × (puts : List Entry)
        × AreHeard (λ (u : ⊤). reply.Done) fates.now sending.now.id sending.now.shard (put_of sending.now.id rules.entry.now sending.now.version point.now) (nodes_of members.now) heard puts
        × Ran D.state replicas.old puts replicas.new × (length puts ≤ 4 * length members.now)
        × (tally.new.answered.items ≡ answering (map told_of (counted_among members.now heard))) × (tally.new.reasons.items ≡ refusing (map told_of (counted_among members.now heard))) }
{
    for member in members {
        let slot = Slot {
            shard: sending.shard,
            node: member.node,
        };
        let fate = fate_to(fates, sending.id, member.node);
        let said = put_by_fate(
            replicas,
            fate,
            slot,
            sending.id,
            rules,
            sending.version,
            point,
        );
        count(tally, member, said.err());
    }
}

// Adds the Ack of the Send at this position to the list, which has room for it.
fn acknowledge<D: Disk>(replicas: &mut Replicas<D>, send: u64, nodes: &Seq<u8>)
    requires acks { IsAck replicas.old.events send nodes.now }
    requires room { HasRoom 1 replicas.old.events }
    ensures { Ran D.state replicas.old (event.Ack send nodes.now ∷ []) replicas.new }
{
    let ack = EventView::ack(send, nodes);
    add(replicas, &ack);
}

// Acknowledged where enough of the nodes that count took it: then the list has the Ack.
fn settle<D: Disk>(
    replicas: &mut Replicas<D>,
    send: u64,
    shard: u32,
    needed: u32,
    tally: Tally,
) -> Result<Seq<u8>, SessionErr>
    requires acks { IsAck replicas.old.events send tally.answered.items }
    requires room { HasRoom 1 replicas.old.events }
    ensures ok { IfOk result (λ acks. (acks ≡ tally.answered.items) × (needed ≤ length acks) × Ran D.state replicas.old (event.Ack send acks ∷ []) replicas.new) }
    ensures err { IfErr result (λ e. IsShortOf needed shard tally.answered.items tally.reasons.items e × (replicas.new ≡ replicas.old)) }
{
    if tally.answered.len() < needed as usize {
        return Err(tally.too_few(shard, needed));
    }
    let Tally { answered, .. } = tally;
    let nodes = Seq::from_vec(answered);
    acknowledge(replicas, send, &nodes);
    Ok(nodes)
}

// Sends the write to these members and acknowledges it where enough of those that count took it. The list has room for all
// that this adds.
fn send_all<D: Disk>(
    alloc: Global,
    replicas: &mut Replicas<D>,
    bag: &mut Bag,
    fates: &Fates,
    rules: &Rules,
    sending: &Sending,
    point: &Point,
    members: &[Assignment],
    needed: u32,
) -> Result<Seq<u8>, SessionErr>
    requires clock { HasClock replicas.old.events rules.now }
    requires shard { HasShard replicas.old.events sending.now.version sending.now.shard }
    requires counted { (nodes : List ℕ) → ((n : ℕ) → IsIn nodes n → (a : Member) × IsIn members.now a × (counts a.state ≡ true) × (a.node ≡ n)) → AreCounted replicas.old.events sending.now.version sending.now.shard nodes }
    requires differ { Ascends (λ a b. a.node ≢ b.node) members.now }
    requires there { (a : Member) → IsIn members.now a → finite.get replicas.old.members (slot_at a.node sending.now.shard) ≢ None }
    requires room { HasRoom (most_added members.now) replicas.old.events }
    requires known { point.now.ns < length rules.now.spaces }
    requires bounded { IsBounded point.now }
    ensures ok { IfOk result (λ acks. IsSettled D.state fates.now (record { id = sending.now.id; rules = rules.entry.now; version = sending.now.version; shard = sending.now.shard; point = point.now }) members.now needed acks replicas.old replicas.new bag.old bag.new) }
    ensures err { IfErr result (IsUnsettled D.state fates.now (record { id = sending.now.id; rules = rules.entry.now; version = sending.now.version; shard = sending.now.shard; point = point.now }) members.now needed replicas.old replicas.new bag.old bag.new) }
{
    let mut tally = Tally::with_room(alloc, members.len())?;
    let position = send(replicas, sending, point);
    keep_late(alloc, bag, fates, sending, point, members)?;
    put_all(replicas, fates, sending, rules, point, members, &mut tally);
    settle(replicas, position, sending.shard, needed, tally)
}

// To whom a write goes: a shard, and all its replicas.
#[derive(Drop)]
struct Receivers {
    shard: u32,
    members: Seq<Assignment>,
}

// To whom the write of the point goes.
fn receivers_of(alloc: Global, state: &MetaState, point: &Point) -> Result<Receivers, Memory>
    requires some { 0 < length state.now.place.shards }
    requires few { length state.now.place.shards < 2 ^ 32 }
    ensures shard { IfOk result (λ to. to.shard ≡ shard_of_point state.now point.now) }
    ensures members { IfOk result (λ to. AreMembers state.now.place to.shard to.members) }
{
    let shards = state.place.shards.len() as u32;
    let shard = shard_of(point.id.as_str(), state.seed, shards);
    let members = members(alloc, &state.place, shard)?;
    Ok(Receivers { shard, members })
}

/// Sends a client's write to every replica of the shard of its identifier, and answers the nodes among those that count
/// that took it, ascending by name: at least as many as the level needs. The point's namespace is one of the rules.
///
/// The list gets the Send first, then what each message brings, and at the end the Ack, where there are enough. A message
/// whose fate is to be lost or late isn't delivered, and its node counts as one that didn't answer. The late ones go to the
/// bag before any replica is asked, in the order of the nodes; beyond 4,096 they are lost.
///
/// # Errors
///
/// `Consistency` where fewer nodes than needed took it: the others of those that count stand in it with their reasons, and
/// the replicas that took the point keep it. After `Memory` no replica was asked, but the Send may be in the list, and late
/// messages in the bag. `Full` where the list has no room for all that the write may add; nothing changes.
pub fn write<D: Disk>(
    net: &mut Net<D>,
    alloc: Global,
    id: CallId,
    point: &Point,
    level: WriteLevel,
) -> Result<Seq<u8>, SessionErr>
    requires ready { IsCallable net.old.state net.old.replicas net.old.bag }
    requires known { point.now.ns < length net.old.state.rules.spaces }
    requires bounded { IsBounded point.now }
    ensures callable { (s : State) → IsCallable s net.old.replicas net.old.bag → IsCallable s net.new.replicas net.new.bag }
    ensures ready { (s : State) → IsReady s net.old.replicas net.old.bag → IsReady s net.new.replicas net.new.bag }
    ensures ok { IfOk result (λ acks. IsAcknowledged D.state net.old id point.now level acks net.new) }
    ensures err { IfErr result (IsRefused D.state net.old id point.now level net.new) }
    ensures state { net.new.state ≡ net.old.state }
    ensures fates { net.new.fates ≡ net.old.fates }
{
    let to = receivers_of(alloc, &net.state, point)?;
    if !net.replicas.has_room(2 + 4 * to.members.len() as u64) {
        return Err(SessionErr::Full);
    }
    let sending = Sending {
        id,
        shard: to.shard,
        version: net.state.place.version,
    };
    let needed = needed_write(level, net.state.place.rf);
    send_all(
        alloc,
        &mut net.replicas,
        &mut net.bag,
        &net.fates,
        &net.state.rules,
        &sending,
        point,
        to.members.as_slice(),
        needed,
    )
}
