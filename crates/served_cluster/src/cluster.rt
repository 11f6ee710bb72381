ghost use Rattle.std.specs.Prelude.{◌≡◌, ◌≢◌, ◌<◌, ◌≤◌, [], List, Option, Some, None, Bool, true};
ghost use Rattle.std.specs.Option.{option_copied};
ghost use Rattle.m3_model.specs.declared.rules.MetaState.{MetaState};
ghost use Rattle.m3_model.specs.declared.turn.Turn.{Turn};
ghost use Rattle.m3_model.specs.declared.act.Act.TheVariants as act;
ghost use Rattle.m3_model.specs.Calls.{is_call};
ghost use Rattle.m3_model.specs.Limits.{MeetsLimits};
ghost use Rattle.served_acts.specs.NotYet.{IsServedAct};
ghost use Rattle.m3_outside.specs.Depots.{Depot, TellAll};
ghost use Rattle.m3_outside.specs.Slots.{Out};
ghost use Rattle.m3_outside.specs.declared.slot.DiskSlot.{DiskSlot};
ghost use Rattle.line_tracks.specs.event_trail.Trails.{IsLegalOver};
ghost use Rattle.line_tracks.specs.replica_exchange.declared.slot.Slot.{Slot as AtSlot};
ghost use Rattle.line_tracks.specs.replica_calls.Calls.{AreMembersOf};
ghost use Rattle.line_tracks.specs.session_net.Ready.{IsReady};
ghost use Rattle.line_tracks.specs.transcripts.Placements.{placement_after, start_placement};
ghost use Rattle.line_tracks.specs.transcripts.Record.{Record, inner_turns};
ghost use Rattle.line_tracks.specs.first_cluster.Depots.{RisesBy, count_at, disk_slot_of, IsForReplicas};
ghost use Rattle.line_tracks.specs.tracks.Ends.{replica_at};
ghost use Rattle.line_tracks.specs.tracks.Lain.{LayBare};
ghost use Rattle.line_tracks.specs.tracks.Tracks.{events_of};
ghost use Rattle.line_tracks.specs.tracks.Numbers.{last_number};
ghost use Rattle.line_tracks.specs.replica_exchange.declared.call_id.CallId.{CallId as CallName};
ghost use Rattle.line_tracks.specs.tracks.Acts.{Does};
ghost use Rattle.line_tracks.specs.tracks.Lines.{EachMember};
ghost use Rattle.served_cluster.specs.Acts.{Answers, first_numbers, tends_nodes};
ghost use Rattle.served_cluster.specs.Owned.{AreReady, MayServeCluster, TracksTurns, held_at, place_of};

use line_tracks::of_cluster_members::{Members, Range};
use line_tracks::of_cluster_upkeep::{flush, snapshot, status, tick};
use line_tracks::of_first_cluster::give_all;
use line_tracks::of_node_calls::{deliver, restart, set_fates, stop};
use line_tracks::of_replica_exchange::CallId;
use m3_model::{Act, Answer, Fate, Placement, Seq, Text};
use m3_outside::{Disk, Disks};
use net_plan::Calls;
use std::alloc::Global;

// At this number a numbering stays, so that no call goes by it.
const LAST_NUMBER: u64 = u64::MAX;

/// The nodes of one process and what they hold, before `init` none.
#[derive(Drop)]
pub struct Cluster<D: Disk> {
    pub members: Option<Members<D>>,
    pub(crate) calls: Calls,
}

// The call of this number of the lines outside `par`.
fn call_of(number: u64) -> CallId
    ensures { result ≡ record { client = 0; number = number } }
{
    CallId { client: 0, number }
}

// Makes a write, a fetch or a match as this call.
fn call_on<D: Disk>(members: &mut Members<D>, alloc: Global, id: CallId, act: Act) -> Answer
    requires limits { MeetsLimits act }
    requires served { IsServedAct act }
    requires call { is_call act ≡ true }
    requires number { id.number < last_number }
    requires ready { AreReady (Some members.old) }
    ensures ready { IsReady members.new.net.state members.new.net.replicas members.new.net.bag }
    ensures does { Does D.state id members.old act result members.new }
{
    match act {
        Act::Write {
            ns,
            id: name,
            t,
            v,
            level,
            version,
        } => members.write(alloc, id, ns, name, t, v, level, version),
        Act::Fetch {
            ns,
            id: name,
            from,
            to,
            level,
            version,
        } => members.fetch(alloc, id, ns, name, Range { from, to }, level, version),
        Act::Match {
            ns,
            wanted,
            from,
            to,
            level,
            version,
        } => members.find(alloc, id, ns, wanted, Range { from, to }, level, version),
        _ => unreachable!(),
    }
}

// Stops or restarts a node, delivers late messages, or goes over all replicas.
fn tend_on<D: Disk>(members: &mut Members<D>, alloc: Global, act: Act) -> Answer
    requires limits { MeetsLimits act }
    requires tends { tends_nodes act ≡ true }
    requires ready { AreReady (Some members.old) }
    ensures ready { IsReady members.new.net.state members.new.net.replicas members.new.net.bag }
    ensures does { (id : CallName) → Does D.state id members.old act result members.new }
{
    match act {
        Act::Deliver => deliver(members, alloc),
        Act::Stop { node } => stop(members, node),
        Act::Restart { node, pick } => restart(members, node, pick),
        Act::Tick => tick(members, alloc),
        Act::Flush => flush(members, alloc),
        Act::Snapshot => snapshot(members, alloc),
        Act::Status => status(members, alloc),
        _ => unreachable!(),
    }
}

impl<D: Disk> Cluster<D> {
    /// No nodes yet.
    pub fn new() -> Cluster<D>
        ensures none { result.members ≡ None }
        ensures calls { result.calls ≡ first_numbers }
        ensures tracks { (tells : Bool) (past : List Record) (first : Depot D) → (tells ≡ true → TellAll D.state) → (tells ≡ true → LayBare D.state past first.held) → TracksTurns D.state tells past None first first [] result }
    {
        Cluster {
            members: None,
            calls: Calls::new(),
        }
    }

    /// The placement, from `init` on: that which the turns so far left, where they are tracked.
    pub fn place(&self) -> Option<&Placement>
        ensures stands { option_copied result ≡ place_of self.now }
        ensures left { (tells : Bool) (past : List Record) (start : Option MetaState) (first now : Depot D) (turns : List Turn) → TracksTurns D.state tells past start first now turns self.now → placement_after (start_placement start) (inner_turns turns) ≡ place_of self.now }
    {
        match &self.members {
            None => None,
            Some(members) => Some(&members.net.state.place),
        }
    }

    /// The list of events is legal as far as the disks tell, and each replica is what it says.
    pub fn know(&self)
        ensures legal { IsLegalOver D.state (events_of self.now.members) }
        ensures members { EachMember self.now.members (λ m. AreMembersOf D.state m.net.replicas) }
    {
        match &self.members {
            None => {}
            Some(members) => members.net.replicas.know(),
        }
    }

    /// Sets what becomes of messages. Fates that are accepted begin all numberings anew.
    pub fn set_fates(&mut self, alloc: Global, list: Seq<(u32, u64, Text, Fate)>) -> Answer
        requires limits { MeetsLimits (act.Fates list) }
        requires ready { AreReady self.old.members }
        ensures ready { AreReady self.new.members }
        ensures answers { Answers D.state self.old (act.Fates list) result self.new }
    {
        let Some(members) = &mut self.members else {
            return Answer::Order;
        };
        let answer = set_fates(members, alloc, list);
        if let Answer::Done = &answer {
            self.calls.restart();
        }
        answer
    }

    /// Answers a write, a fetch or a match. Its number is its own, so the last one is given to no call.
    pub fn call(&mut self, alloc: Global, act: Act) -> Answer
        requires limits { MeetsLimits act }
        requires served { IsServedAct act }
        requires call { is_call act ≡ true }
        requires ready { AreReady self.old.members }
        ensures ready { AreReady self.new.members }
        ensures answers { Answers D.state self.old act result self.new }
    {
        let number = self.calls.next(0);
        let Some(members) = &mut self.members else {
            drop(act);
            return Answer::Order;
        };
        if number == LAST_NUMBER {
            drop(act);
            return Answer::Memory;
        }
        call_on(members, alloc, call_of(number), act)
    }

    /// Answers what stops or restarts a node, delivers late messages, or goes over all replicas.
    pub fn tend(&mut self, alloc: Global, act: Act) -> Answer
        requires limits { MeetsLimits act }
        requires tends { tends_nodes act ≡ true }
        requires ready { AreReady self.old.members }
        ensures ready { AreReady self.new.members }
        ensures answers { Answers D.state self.old act result self.new }
    {
        let Some(members) = &mut self.members else {
            drop(act);
            return Answer::Order;
        };
        tend_on(members, alloc, act)
    }

    /// Gives all disks back. The count of all faults rises by as much as those of the disks rose since they were taken.
    /// Takes no memory.
    pub fn close<X: Disks<D = D>>(self, disks: &mut X)
        requires owned { MayServeCluster self (X.depot disks.old).held }
        ensures none_out { (slot : DiskSlot) → IsForReplicas slot → (X.depot disks.new).held slot ≢ Out }
        ensures meta { (slot : DiskSlot) → ¬ IsForReplicas slot → (X.depot disks.new).held slot ≡ (X.depot disks.old).held slot }
        ensures held { (s : AtSlot) → (X.depot disks.new).held (disk_slot_of s) ≡ held_at (X.depot disks.old) (replica_at self.members s) s }
        ensures counted { (s : AtSlot) → (X.depot disks.new).counted (disk_slot_of s)
            ≡ count_at D.state (X.depot disks.old) (replica_at self.members s) s }
        ensures rose { RisesBy D.state (X.depot disks.old) self.members (X.depot disks.new).faults }
        ensures later { (X.depot disks.old).faults ≤ (X.depot disks.new).faults }
    {
        let Cluster { members, .. } = self;
        if let Some(mut members) = members {
            let lent = &mut members;
            give_all(disks, lent.slots.as_slice(), &mut lent.net.replicas);
            drop(members);
        }
    }
}
