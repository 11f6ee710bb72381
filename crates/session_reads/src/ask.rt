//! Messages to the nodes of one shard, and the join of their answers.
ghost use Rattle.std.specs.Prelude.{◌≡◌, ◌≢◌, ◌<◌, ◌*◌, ℕ, suc, List, [], ◌∷◌, ◌++◌, map, None, length, take, IfOk, OnOk, OnErr, IsErrOf};
ghost use Rattle.std.specs.FinMap as finite;
ghost use Rattle.std.specs.List.{filter_map};
ghost use Rattle.std.specs.Result.{result_ok, result_err};
ghost use Rattle.m3_model.specs.Members.{IsIn};
ghost use Rattle.m3_model.specs.Contents.{content_of};
ghost use Rattle.m3_model.specs.Reads.{IsOrdered, points_in, space_picked};
ghost use Rattle.m3_model.specs.declared.reason.Damage.{Damage};
ghost use Rattle.m3_model.specs.declared.reason.Reason.TheVariants as reason;
ghost use Rattle.session_net.specs.replica_exchange.Damages.{IsFileDamage};
ghost use Rattle.m3_model.specs.declared.point.Series.{Series as Found};
ghost use Rattle.session_net.specs.cluster_core.Earlier.{HasClock};
ghost use Rattle.session_net.specs.cluster_core.declared.event.StepReply.TheVariants as reply;
ghost use Rattle.session_net.specs.replica_exchange.MachineCalls.{HasRoom};
ghost use Rattle.session_net.specs.Brought.{Delivered, Brought};
ghost use Rattle.session_net.specs.Messages.{Heard};
ghost use Rattle.session_net.specs.Outcomes.{NodeOutcome, told_of, answering, refusing};
ghost use Rattle.session_net.specs.Reads.{read_of, AreForms};
ghost use Rattle.session_net.specs.Runs.{slot_at};
ghost use Rattle.session_net.specs.Tallies.{HasRoom as Counts};
ghost use Rattle.series_merge.specs.Merges.{IsMergeOf};
ghost use Rattle.session_reads.specs.Gathering.{wish_of, TakesIn, IsContentOf, WereAsked};

use m3_model::{Fate, Memory, MetaState, Pick, Reason, Seq, Series};
use m3_outside::Disk;
use series_merge::merge;
use session_net::of_net_plan::Fates;
use session_net::of_replica_exchange::{CallErr, CallId, Slot};
use session_net::{Replicas, Tally, fate_to};
use std::alloc::Global;
use std::mem::replace;

// How many nodes of a shard a read asks for.
#[derive(Clone, Copy)]
pub(crate) struct Quorum {
    // How many have to answer.
    pub(crate) needed: u32,
    // How many are a majority.
    pub(crate) majority: u32,
}

// What the reads of one fetch share beside its pick.
#[derive(Clone, Copy)]
pub(crate) struct Asking {
    pub(crate) id: CallId,
    pub(crate) from: u64,
    pub(crate) to: u64,
    pub(crate) quorum: Quorum,
}

// Joins an answer to those before it.
pub(crate) fn join_answer(
    alloc: Global,
    into: &mut Seq<Series>,
    answer: Seq<Series>,
) -> Result<(), Memory>
    requires into { IsOrdered into.old }
    requires answer { IsOrdered answer }
    ensures { OnOk result (IsMergeOf into.old answer into.new) }
{
    let before = replace(into, Seq::new(alloc));
    let joined = merge(alloc, before, answer)?;
    drop(replace(into, joined));
    Ok(())
}

// What the replica at the slot, which is there, answers.
fn read_once<D: Disk>(
    replicas: &mut Replicas<D>,
    slot: Slot,
    state: &MetaState,
    asking: &Asking,
    pick: &Pick,
) -> Result<Seq<Series>, Reason>
    requires clock { HasClock replicas.old.events state.now.rules }
    requires there { finite.get replicas.old.members slot ≢ None }
    requires room { HasRoom 2 replicas.old.events }
    requires known { space_picked pick.now < length state.now.rules.spaces }
    ensures delivered { Delivered D.state reply.Found slot.node slot.shard (read_of asking.now.id state.entry.now.rules state.entry.now.place.version (wish_of pick.now asking.now)) result replicas.old replicas.new }
    ensures ordered { IfOk result IsOrdered }
    ensures form { (damage : Damage) → IsErrOf result (reason.Corrupt damage) → IsFileDamage damage }
{
    match replicas.read(
        slot,
        asking.id,
        &state.rules,
        state.place.version,
        pick,
        asking.from,
        asking.to,
    ) {
        Ok(series) => Ok(series),
        Err(CallErr::Refused(why)) => Err(why),
        Err(CallErr::Full) => unreachable!(),
    }
}

// What it answers as the message's fate has it: a message that is cut isn't delivered, and of one that is delivered twice
// the first answer is heard.
fn read_by_fate<D: Disk>(
    replicas: &mut Replicas<D>,
    fate: Fate,
    slot: Slot,
    state: &MetaState,
    asking: &Asking,
    pick: &Pick,
) -> Result<Seq<Series>, Reason>
    requires clock { HasClock replicas.old.events state.now.rules }
    requires there { finite.get replicas.old.members slot ≢ None }
    requires room { HasRoom 4 replicas.old.events }
    requires known { space_picked pick.now < length state.now.rules.spaces }
    ensures brought { Brought D.state reply.Found fate slot.node slot.shard (read_of asking.now.id state.entry.now.rules state.entry.now.place.version (wish_of pick.now asking.now)) result replicas.old replicas.new }
    ensures ordered { IfOk result IsOrdered }
    ensures form { (damage : Damage) → IsErrOf result (reason.Corrupt damage) → IsFileDamage damage }
{
    match fate {
        Fate::Lose | Fate::Late => Err(Reason::Cut),
        Fate::Deliver => read_once(replicas, slot, state, asking, pick),
        Fate::Twice => {
            let heard = read_once(replicas, slot, state, asking, pick);
            drop(read_once(replicas, slot, state, asking, pick));
            heard
        }
    }
}

// Counts what a node said, and joins its answer where it has one.
fn take_answer(
    alloc: Global,
    into: &mut Seq<Series>,
    tally: &mut Tally,
    node: u8,
    said: Result<Seq<Series>, Reason>,
) -> Result<(), Memory>
    requires counts { Counts 1 tally.old }
    requires ordered { IsOrdered into.old }
    requires answer { IfOk said IsOrdered }
    ensures room { (n : ℕ) → Counts (suc n) tally.old → OnOk result (Counts n tally.new) }
    ensures answered { (told : List NodeOutcome) → tally.old.answered.items ≡ answering told → OnOk result (tally.new.answered.items ≡ answering (told ++ (node, result_err said) ∷ [])) }
    ensures reasons { (told : List NodeOutcome) → tally.old.reasons.items ≡ refusing told → OnOk result (tally.new.reasons.items ≡ refusing (told ++ (node, result_err said) ∷ [])) }
    ensures joins { OnOk result (TakesIn into.old said into.new) }
{
    match said {
        Ok(series) => {
            join_answer(alloc, into, series)?;
            tally.add(node, None);
        }
        Err(why) => tally.add(node, Some(why)),
    }
    Ok(())
}

// Asks these nodes, one after the other, and counts and joins what they answer.
pub(crate) fn ask_nodes<D: Disk>(
    alloc: Global,
    replicas: &mut Replicas<D>,
    fates: &Fates,
    state: &MetaState,
    asking: &Asking,
    pick: &Pick,
    shard: u32,
    nodes: &[u8],
    tally: &mut Tally,
    into: &mut Seq<Series>,
) -> Result<(), Memory>
    requires clock { HasClock replicas.old.events state.now.rules }
    requires there { (n : ℕ) → IsIn nodes.now n → finite.get replicas.old.members (slot_at n shard) ≢ None }
    requires room { HasRoom (4 * length nodes.now) replicas.old.events }
    requires known { space_picked pick.now < length state.now.rules.spaces }
    requires counts { Counts (length nodes.now) tally.old }
    requires none_answered { tally.old.answered.items ≡ [] }
    requires none_refused { tally.old.reasons.items ≡ [] }
    requires nothing { into.old ≡ [] }
    ensures ok { OnOk result ((heard : List (Heard (List Found))) × WereAsked D.state fates.now asking.now.id shard (read_of asking.now.id state.entry.now.rules state.entry.now.place.version (wish_of pick.now asking.now)) nodes.now heard replicas.old replicas.new
        × (tally.new.answered.items ≡ answering (map told_of heard)) × (tally.new.reasons.items ≡ refusing (map told_of heard)) × IsOrdered into.new
        × IsContentOf (space_picked pick.now) (filter_map (λ x. result_ok x.1) heard) (content_of (points_in (space_picked pick.now) into.new)) × AreForms heard) }
    ensures err { OnErr result ((k : ℕ) × (heard : List (Heard (List Found))) × WereAsked D.state fates.now asking.now.id shard (read_of asking.now.id state.entry.now.rules state.entry.now.place.version (wish_of pick.now asking.now)) (take k nodes.now) heard replicas.old replicas.new) }
{
    for node in nodes {
        let slot = Slot { shard, node: *node };
        let fate = fate_to(fates, asking.id, *node);
        let said = read_by_fate(replicas, fate, slot, state, asking, pick);
        take_answer(alloc, into, tally, *node, said)?;
    }
    Ok(())
}
