//! Lines that change the state, each saved before it is answered.
ghost use Rattle.std.specs.Prelude.{◌≡◌, ◌∷◌, [], ◌≢◌, ◌≤◌, ◌-◌, ℕ, List, Bool, true, false, Option, Some, None, IsOk, IsErr, IfOk, IfErr, IfSome, OnOk, IsErrOf};
ghost use Rattle.std.specs.Option.{option_copied};
ghost use Rattle.m3_model.specs.Limits.{IsInit, KeepsLimits, MeetsLimits};
ghost use Rattle.m3_model.specs.declared.act.Act.TheVariants as act;
ghost use Rattle.m3_model.specs.declared.answer.Answer.{Answer as Reported};
ghost use Rattle.m3_model.specs.declared.rules.MetaState.{MetaState as State};
ghost use Rattle.m3_model.specs.declared.turn.Request.TheVariants as request;
ghost use Rattle.m3_model.specs.declared.turn.Turn.{Turn};
ghost use Rattle.served_acts.specs.NotYet.{IsServed, IsServedAct};
ghost use Rattle.m3_outside.specs.Causes.{CountsFaults, RoseBy};
ghost use Rattle.m3_outside.specs.Depots.{Depot};
ghost use Rattle.m3_outside.specs.DiskState.{Elapses};
ghost use Rattle.m3_outside.specs.declared.disk_err.DiskErr.TheVariants as disk_err;
ghost use Rattle.placement_log.specs.MetaHolds.{IsReadyToSave, KeepsLast, MaySave, MetaStands};
ghost use Rattle.meta_bytes.specs.States.{IsMetaState};
ghost use Rattle.m3_outside.specs.Slots.{Held, Here, Out};
ghost use Rattle.m3_outside.specs.declared.slot.DiskSlot.{DiskSlot as AtSlot};
ghost use Rattle.line_tracks.specs.transcripts.Placements.{placement_after, start_placement};
ghost use Rattle.line_tracks.specs.transcripts.Record.{IsAnsweredBy, Record, inner_turns};
ghost use Rattle.line_tracks.specs.session_net.Ready.{IsReady};
ghost use Rattle.line_tracks.specs.tracks.Acts.{IsInitAnswer};
ghost use Rattle.line_tracks.specs.tracks.Ends.{replica_at};
ghost use Rattle.line_tracks.specs.tracks.Lines.{EachMember};
ghost use Rattle.line_tracks.specs.replica_calls.Calls.{AreMembersOf};
ghost use Rattle.line_tracks.specs.replica_exchange.declared.slot.Slot.{Slot};
ghost use Rattle.line_tracks.specs.first_cluster.Depots.{IsForReplicas, RisesBy, count_at, disk_slot_of, meta_slot};
ghost use Rattle.served_cluster.specs.Owned.{TracksTurns, held_at, place_of};
ghost use Rattle.line_tracks.specs.first_cluster.First.{IsLent, IsSomeLent};
ghost use Rattle.line_tracks.specs.first_cluster.Lending.{AreAsTheyWere};
ghost use Rattle.served_cluster.specs.Acts.{is_init};
ghost use Rattle.served_cluster.specs.Joins.{EndsSources, MayEndSources};
ghost use Rattle.served_cluster.specs.Plans.{changes_state, state_of};
ghost use Rattle.saved_cluster.specs.Saved.{AnswersSaved, ElapsesBy, HasState, IsReadyFor, IsSaved, IsUnbegun, MayClose, MayServeSaved, ServesRequestSome, TracksRequest};
ghost use Rattle.saved_cluster.specs.States.{is_init_request, saves, saves_by, unplanned, unready};
ghost use Rattle.saved_cluster.specs.declared.lost.Lost.TheVariants as lost;

use crate::lost::Lost;
use line_tracks::of_cluster_joins::{Booting, Marked};
use line_tracks::of_first_cluster::{Lent, begin_first, give_back, lend_first, plan_first};
use m3_model::{Act, Answer, MetaState, Placement, Reply, Request, Seq, Text};
use m3_outside::{Disk, DiskErr, DiskSlot, Disks};
use placement_log::MetaLog;
use placement_plan::PlaceErr;
use served_cluster::Cluster;
use std::alloc::Global;

/// A cluster, and the meta disk that keeps its state: its moment, its namespaces and its placement.
#[derive(Drop)]
pub struct SavedCluster<D: Disk> {
    pub cluster: Cluster<D>,
    pub(crate) log: MetaLog,
    pub(crate) meta: D,
}

// The answer where a first placement can't be planned.
fn unplanned(why: PlaceErr) -> Answer
    ensures { result ≡ unplanned why }
{
    match why {
        PlaceErr::Group { shard } => Answer::Group { shard },
        _ => Answer::Memory,
    }
}

// What a line gets that led to nothing, since its save couldn't be readied.
fn unready(why: DiskErr) -> Result<Answer, Lost>
    ensures { result ≡ unready why }
{
    match why {
        DiskErr::Memory => Ok(Answer::Memory),
        DiskErr::Failed => Err(Lost::Meta),
    }
}

impl<D: Disk> SavedCluster<D> {
    /// The placement, from `init` on: that which the turns so far left, where they are tracked.
    pub fn place(&self) -> Option<&Placement>
        ensures stands { option_copied result ≡ place_of self.now.cluster }
        ensures left { (tells : Bool) (past : List Record) (start : Option State) (first now : Depot D) (turns : List Turn) → TracksTurns D.state tells past start first now turns self.now.cluster → placement_after (start_placement start) (inner_turns turns) ≡ place_of self.now.cluster }
    {
        self.cluster.place()
    }

    // Takes all that a save needs of this state, which is there unless memory was wanted to make it.
    fn ready(&mut self, next: Option<MetaState>) -> Result<(), DiskErr>
        requires state { IfSome next IsMetaState }
        requires log { MetaStands self.old.log (D.state self.old.meta) }
        ensures cluster { self.new.cluster ≡ self.old.cluster }
        ensures ok { OnOk result (IsReadyFor next self.new.log (D.state self.new.meta)) }
        ensures log { MetaStands self.new.log (D.state self.new.meta) }
        ensures any_moment { (D.state self.old.meta).tells ≡ true → Elapses KeepsLast (D.state self.old.meta) (D.state self.new.meta) }
        ensures tells { (D.state self.new.meta).tells ≡ (D.state self.old.meta).tells }
        ensures faults { CountsFaults (IsErrOf result disk_err.Failed) (D.state self.old.meta).faults (D.state self.new.meta).faults }
    {
        let Some(state) = next else {
            return Err(DiskErr::Memory);
        };
        let readied = self.log.ready(&mut self.meta, &state);
        drop(state);
        readied
    }

    // Saves the state that stands, which is the one that was readied.
    fn save(&mut self) -> Result<(), Lost>
        requires { IsReadyFor (state_of self.old.cluster) self.old.log (D.state self.old.meta) }
        ensures cluster { self.new.cluster ≡ self.old.cluster }
        ensures saved { OnOk result ((last : Option State) → IsSaved last (D.state self.old.meta) → IsSaved (state_of self.new.cluster) (D.state self.new.meta)) }
        ensures any_moment { (next : State) × (state_of self.old.cluster ≡ Some next) × ((D.state self.old.meta).tells ≡ true → Elapses (MaySave next) (D.state self.old.meta) (D.state self.new.meta)) }
        ensures log { MetaStands self.new.log (D.state self.new.meta) }
        ensures tells { (D.state self.new.meta).tells ≡ (D.state self.old.meta).tells }
        ensures meta { IfErr result (λ e. e ≡ lost.Meta) }
        ensures faults { CountsFaults (IsErr result) (D.state self.old.meta).faults (D.state self.new.meta).faults }
    {
        let Some(state) = self.cluster.state() else {
            unreachable!();
        };
        match self.log.save(&mut self.meta, state) {
            Ok(()) => Ok(()),
            Err(_) => Err(Lost::Meta),
        }
    }

    // Serves an act that changes the state of a cluster that stands: all memory that its save takes is there before the step is made, and
    // the state is saved after it.
    fn serve_change<X: Disks<D = D>>(
        &mut self,
        alloc: Global,
        disks: &mut X,
        act: Act,
    ) -> Result<Answer, Lost>
        requires limits { MeetsLimits act }
        requires changes { changes_state act ≡ true }
        requires may { MayServeSaved D.state self.old (X.depot disks.old).held }
        ensures answered { AnswersSaved D.state (X.depot disks.old) self.old act result (X.depot disks.new) self.new }
        ensures meta { IfErr result (λ e. e ≡ lost.Meta) }
    {
        let plan = match self.cluster.plan(alloc, act) {
            Ok(plan) => plan,
            Err(refused) => return Ok(refused),
        };
        let next = self.cluster.state_by(alloc, &plan).ok();
        match self.ready(next) {
            Ok(()) => {}
            Err(DiskErr::Memory) => return Ok(Answer::Memory),
            Err(DiskErr::Failed) => return Err(Lost::Meta),
        }
        let (answer, made) = self.cluster.make(alloc, disks, plan);
        if !made {
            return Ok(answer);
        }
        match self.save() {
            Ok(()) => Ok(answer),
            Err(lost) => Err(lost),
        }
    }

    // Ends the tenures of the nodes from which a node took over, whose shards stand marked in the state that is saved, and answers its line.
    fn end_saved(&mut self, marked: Marked) -> Answer
        requires saved { IsSaved (state_of self.old.cluster) (D.state self.old.meta) }
        requires may { MayEndSources self.old.cluster marked }
        ensures ended { EndsSources D.state self.old.cluster marked result self.new.cluster }
        ensures meta { (self.new.meta ≡ self.old.meta) × (self.new.log ≡ self.old.log) }
    {
        self.cluster.end_sources(marked)
    }

    // Serves the bootstrap of a node. Where it joined shards, all memory that the save takes is there before they are marked. The state is saved
    // then, and after that the tenures of the nodes end from which it took over. Tenures are in memory alone: where the save failed, they end, too,
    // and so does the run.
    fn serve_bootstrap(
        &mut self,
        alloc: Global,
        node: Text,
        shard: Option<u32>,
    ) -> Result<Answer, Lost>
        requires may { (held : AtSlot → Held D) × MayServeSaved D.state self.old held }
        ensures answered { (depot : Depot D) → MayServeSaved D.state self.old depot.held → AnswersSaved D.state depot self.old (act.Bootstrap node shard) result depot self.new }
        ensures meta { IfErr result (λ e. e ≡ lost.Meta) }
    {
        let marking = match self.cluster.open_node(alloc, node, shard) {
            Booting::Answered(answer) => return Ok(answer),
            Booting::Joined(marking) => marking,
        };
        let next = self.cluster.state_with(alloc, &marking).ok();
        match self.ready(next) {
            Ok(()) => {}
            Err(why) => {
                marking.give_up();
                return unready(why);
            }
        }
        let marked = self.cluster.mark(marking);
        match self.save() {
            Ok(()) => Ok(self.end_saved(marked)),
            Err(lost) => {
                drop(self.cluster.end_sources(marked));
                Err(lost)
            }
        }
    }

    // Saves the state of a first cluster, which was readied, and has its replicas begin. Where that can't be done, its disks are given back.
    fn begin<X: Disks<D = D>>(&mut self, disks: &mut X, lent: Lent<D>) -> Result<Answer, Lost>
        requires none { self.old.cluster.members ≡ None }
        requires lent { IsSomeLent D.state (X.depot disks.old) lent }
        requires ready { IsReadyToSave self.old.log lent.members.net.state (D.state self.old.meta) }
        ensures served { (rf shards seed : ℕ) (nodes : List (List ℕ × List ℕ)) (first : Depot D) → IsLent D.state rf shards seed nodes first (X.depot disks.old) lent
            → (said : Reported) × IfOk result (λ b. b ≡ said) × IsInitAnswer D.state first None rf shards seed nodes said (X.depot disks.new) self.new.cluster.members }
        ensures ready { EachMember self.new.cluster.members (λ m. IsReady m.net.state m.net.replicas m.net.bag) }
        ensures state { OnOk result (state_of self.new.cluster ≡ Some lent.members.net.state) }
        ensures has { HasState self.new.cluster lent.members.net.state }
        ensures calls { self.new.cluster.calls ≡ self.old.cluster.calls }
        ensures untouched { IsErrOf result lost.Meta → (rf shards seed : ℕ) (nodes : List (List ℕ × List ℕ)) (first : Depot D) → IsLent D.state rf shards seed nodes first (X.depot disks.old) lent → AreAsTheyWere D.state first (X.depot disks.new) }
        ensures saved { OnOk result ((last : Option State) → IsSaved last (D.state self.old.meta) → IsSaved (Some lent.members.net.state) (D.state self.new.meta)) }
        ensures unmade { IsErrOf result lost.Meta → self.new.cluster.members ≡ None }
        ensures unbegun { IsErrOf result lost.Memory → (self.new.cluster.members ≡ None) × ((last : Option State) → IsSaved last (D.state self.old.meta) → IsSaved (Some lent.members.net.state) (D.state self.new.meta)) }
        ensures any_moment { (D.state self.old.meta).tells ≡ true → Elapses (MaySave lent.members.net.state) (D.state self.old.meta) (D.state self.new.meta) }
        ensures log { MetaStands self.new.log (D.state self.new.meta) }
        ensures tells { (D.state self.new.meta).tells ≡ (D.state self.old.meta).tells }
        ensures faults { CountsFaults (IsErrOf result lost.Meta) (D.state self.old.meta).faults (D.state self.new.meta).faults }
    {
        match self.log.save(&mut self.meta, &lent.members.net.state) {
            Ok(()) => {}
            Err(_) => {
                give_back(disks, lent);
                return Err(Lost::Meta);
            }
        }
        let (members, placement) = match begin_first(disks, lent) {
            Ok(made) => made,
            Err(_) => return Err(Lost::Memory),
        };
        self.cluster.stand(members);
        let version = placement.version;
        Ok(Answer::Placed { placement, version })
    }

    // Serves an `init` where no cluster stands.
    fn serve_first<X: Disks<D = D>>(
        &mut self,
        alloc: Global,
        disks: &mut X,
        rf: u32,
        shards: u32,
        seed: u32,
        nodes: Seq<(Text, Text)>,
    ) -> Result<Answer, Lost>
        requires limits { IsInit rf shards seed nodes }
        requires none { self.old.cluster.members ≡ None }
        requires may { MayServeSaved D.state self.old (X.depot disks.old).held }
        ensures answered { AnswersSaved D.state (X.depot disks.old) self.old (act.Init rf shards seed nodes) result (X.depot disks.new) self.new }
        ensures untouched { IsErrOf result lost.Meta → AreAsTheyWere D.state (X.depot disks.old) (X.depot disks.new) }
        ensures unmade { IsErrOf result lost.Meta → self.new.cluster.members ≡ None }
        ensures unbegun { IsErrOf result lost.Memory → IsUnbegun D.state self.old (request.One (act.Init rf shards seed nodes)) self.new }
    {
        let plan = match plan_first(alloc, rf, shards, seed, nodes) {
            Ok(plan) => plan,
            Err(why) => return Ok(unplanned(why)),
        };
        match self.log.ready(&mut self.meta, plan.state()) {
            Ok(()) => {}
            Err(DiskErr::Memory) => return Ok(Answer::Memory),
            Err(DiskErr::Failed) => return Err(Lost::Meta),
        }
        match lend_first(alloc, disks, plan) {
            Ok(lent) => self.begin(disks, lent),
            Err(refused) => Ok(refused),
        }
    }

    // Serves an `init`.
    fn serve_init<X: Disks<D = D>>(
        &mut self,
        alloc: Global,
        disks: &mut X,
        rf: u32,
        shards: u32,
        seed: u32,
        nodes: Seq<(Text, Text)>,
    ) -> Result<Answer, Lost>
        requires limits { IsInit rf shards seed nodes }
        requires may { MayServeSaved D.state self.old (X.depot disks.old).held }
        ensures answered { AnswersSaved D.state (X.depot disks.old) self.old (act.Init rf shards seed nodes) result (X.depot disks.new) self.new }
        ensures untouched { IsErrOf result lost.Meta → AreAsTheyWere D.state (X.depot disks.old) (X.depot disks.new) }
        ensures unmade { IsErrOf result lost.Meta → self.new.cluster.members ≡ None }
        ensures unbegun { IsErrOf result lost.Memory → IsUnbegun D.state self.old (request.One (act.Init rf shards seed nodes)) self.new }
    {
        if self.cluster.state().is_some() {
            return Ok(Answer::Order);
        }
        self.serve_first(alloc, disks, rf, shards, seed, nodes)
    }

    // Answers an act. One that changes the state is saved before; the others are the cluster's alone.
    fn serve_act<X: Disks<D = D>>(
        &mut self,
        alloc: Global,
        disks: &mut X,
        act: Act,
    ) -> Result<Answer, Lost>
        requires limits { MeetsLimits act }
        requires served { IsServedAct act }
        requires may { MayServeSaved D.state self.old (X.depot disks.old).held }
        ensures answered { AnswersSaved D.state (X.depot disks.old) self.old act result (X.depot disks.new) self.new }
        ensures others { saves_by act ≡ false → (self.new.meta ≡ self.old.meta) × (self.new.log ≡ self.old.log) × IsOk result }
        ensures untouched { IsErrOf result lost.Meta → is_init act ≡ true → AreAsTheyWere D.state (X.depot disks.old) (X.depot disks.new) }
        ensures unmade { IsErrOf result lost.Meta → is_init act ≡ true → self.new.cluster.members ≡ None }
        ensures wanted { IsErrOf result lost.Memory → is_init act ≡ true }
        ensures unbegun { IsErrOf result lost.Memory → IsUnbegun D.state self.old (request.One act) self.new }
    {
        match act {
            Act::Init {
                rf,
                shards,
                seed,
                nodes,
            } => self.serve_init(alloc, disks, rf, shards, seed, nodes),
            Act::Namespace { .. }
            | Act::Now { .. }
            | Act::Add { .. }
            | Act::Drain { .. }
            | Act::Cancel { .. }
            | Act::Remove { .. }
            | Act::Replace { .. } => self.serve_change(alloc, disks, act),
            Act::Bootstrap { node, shard } => self.serve_bootstrap(alloc, node, shard),
            Act::Write { .. } | Act::Fetch { .. } | Act::Match { .. } => {
                Ok(self.cluster.call(alloc, act))
            }
            Act::Fates { list } => Ok(self.cluster.set_fates(alloc, list)),
            Act::Deliver
            | Act::Stop { .. }
            | Act::Restart { .. }
            | Act::Tick
            | Act::Flush
            | Act::Snapshot
            | Act::Status => Ok(self.cluster.tend(alloc, act)),
            Act::Repair => unreachable!(),
        }
    }

    /// Answers one request. A namespace, a moment, a first placement and a next one are saved before they are answered, also the one that ends moves as a
    /// node is bootstrapped: whatever a stop leaves after the reply, it has the state that the cluster has. A refusal has changed nothing of the state,
    /// also one for want of memory.
    ///
    /// # Errors
    ///
    /// The request gets no reply: the meta disk failed, and a stop leaves the state from before the request or the one that it leads to; or memory was
    /// wanted as the replicas of an `init` began, after its state was saved. The cluster is to be closed then.
    pub fn serve<X: Disks<D = D>>(
        &mut self,
        alloc: Global,
        disks: &mut X,
        request: Request,
    ) -> Result<Reply, Lost>
        requires limits { KeepsLimits request }
        requires served { IsServed request }
        requires may { MayServeSaved D.state self.old (X.depot disks.old).held }
        ensures may { OnOk result (MayServeSaved D.state self.new (X.depot disks.new).held) }
        ensures close { MayClose self.new (X.depot disks.new).held }
        ensures answered { IfOk result (IsAnsweredBy request) }
        ensures served { ServesRequestSome D.state (X.depot disks.old) self.old.cluster request result (X.depot disks.new) self.new.cluster }

        // The placement stands then that stood before, or the one that the reply prints.
        ensures place { IfOk result (λ said. placement_after (place_of self.old.cluster) (inner_turns (record { request = request; reply = said } ∷ [])) ≡ place_of self.new.cluster) }

        // The turns so far that are tracked are so with this one.
        ensures tracks { (tells : Bool) (past : List Record) (start : Option State) (first : Depot D) (turns : List Turn)
            → TracksTurns D.state tells past start first (X.depot disks.old) turns self.old.cluster
            → TracksRequest D.state tells past start first (X.depot disks.new) turns request result self.new }

        // At any moment within the call a stop left the state from before it or the one to which it leads, which is the cluster's own.
        ensures any_moment { (D.state self.old.meta).tells ≡ true → ElapsesBy self.old.cluster request self.new.cluster (D.state self.old.meta) (D.state self.new.meta) }

        // A request that doesn't change the state leaves the meta disk as it is, and gets a reply.
        ensures others { saves request ≡ false → (self.new.meta ≡ self.old.meta) × (self.new.log ≡ self.old.log) × IsOk result }

        // Replicas of an `init` begin once its state is saved: where that fails none stands, and their disks are back as they were.
        ensures untouched { IsErrOf result lost.Meta → is_init_request request ≡ true → AreAsTheyWere D.state (X.depot disks.old) (X.depot disks.new) }
        ensures unmade { IsErrOf result lost.Meta → is_init_request request ≡ true → self.new.cluster.members ≡ None }

        // Memory is wanted so only as the replicas of an `init` begin, whose state is saved by then.
        ensures wanted { IsErrOf result lost.Memory → is_init_request request ≡ true }
        ensures unbegun { IsErrOf result lost.Memory → IsUnbegun D.state self.old request self.new }

        ensures tells { (D.state self.new.meta).tells ≡ (D.state self.old.meta).tells }
        ensures faults { CountsFaults (IsErrOf result lost.Meta) (D.state self.old.meta).faults (D.state self.new.meta).faults }
    {
        match request {
            Request::One(act) => {
                self.cluster.know();
                let answered = self.serve_act(alloc, disks, act);
                self.cluster.know();
                match answered {
                    Ok(answer) => Ok(Reply::One(answer)),
                    Err(lost) => Err(lost),
                }
            }
            Request::Par { .. } => unreachable!(),
        }
    }

    /// Gives all disks back. The count of all faults rises by as much as those of the disks rose since they were taken. Takes no memory.
    pub fn close<X: Disks<D = D>>(self, disks: &mut X)
        requires close { MayClose self (X.depot disks.old).held }
        ensures none_out { (disk_slot : AtSlot) → (X.depot disks.new).held disk_slot ≢ Out }
        ensures meta { (X.depot disks.new).held meta_slot ≡ Here self.meta }
        ensures held { (s : Slot) → IsForReplicas (disk_slot_of s) → (X.depot disks.new).held (disk_slot_of s) ≡ held_at (X.depot disks.old) (replica_at self.cluster.members s) s }
        ensures counted { (s : Slot) → IsForReplicas (disk_slot_of s) → (X.depot disks.new).counted (disk_slot_of s) ≡ count_at D.state (X.depot disks.old) (replica_at self.cluster.members s) s }
        ensures meta_counted { (X.depot disks.new).counted meta_slot ≡ (D.state self.meta).faults }
        ensures rose { (between : ℕ) × RisesBy D.state (X.depot disks.old) self.cluster.members between × RoseBy ((D.state self.meta).faults - (X.depot disks.old).counted meta_slot) between (X.depot disks.new).faults }
        ensures later { (X.depot disks.old).faults ≤ (X.depot disks.new).faults }

        // What its replicas' machines are is known.
        ensures members { EachMember self.cluster.members (λ m. AreMembersOf D.state m.net.replicas) }
    {
        self.cluster.know();
        let SavedCluster { cluster, meta, .. } = self;
        cluster.close(disks);
        disks.give(DiskSlot::META, meta);
    }
}
