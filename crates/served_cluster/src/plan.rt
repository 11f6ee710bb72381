//! Acts that change the state of a cluster that stands, in two parts: planned, and made.
ghost use Rattle.std.specs.Prelude.{◌≡◌, true, Some, None, Ok, Err, IfOk, IfErr, option_map};
ghost use Rattle.std.specs.Option.{option_copied};
ghost use Rattle.m3_model.specs.declared.act.Act.{Act as Line};
ghost use Rattle.m3_model.specs.Limits.{MeetsLimits};
ghost use Rattle.m3_model.specs.declared.rules.Rules.{Rules as Ruled};
ghost use Rattle.m3_outside.specs.Depots.{Depot};
ghost use Rattle.line_tracks.specs.session_net.Ready.{IsReady};
ghost use Rattle.line_tracks.specs.cluster_placements.Steps.{MayChange};
ghost use Rattle.served_cluster.specs.Acts.{Serves, first_numbers};
ghost use Rattle.served_cluster.specs.Owned.{AreReady, MayServeCluster};
ghost use Rattle.served_cluster.specs.Plans.{IsPlannedBy, IsPlannedOn, MakesOn, RefusesOn, by_plan, changes_state, is_placed, state_after, state_of};
ghost use Rattle.served_cluster.specs.declared.plan.Plan.TheVariants as plan;

use crate::cluster::Cluster;
use line_tracks::of_cluster_members::Members;
use line_tracks::of_cluster_placements::{Change, make_change, plan_change};
use m3_model::{Act, Answer, Duplicate, Memory, MetaState, Rules, Space};
use m3_outside::{Disk, Disks};
use net_plan::Calls;
use std::alloc::Global;
use std::mem::replace;

/// What an act that changes the state is to make of a cluster that stands.
#[derive(Drop)]
pub enum Plan {
    /// These rules are set.
    Rules(Rules),
    /// The next placement stands.
    Next(Change),
}

// The rules that are to be set, as a plan.
fn of_rules(rules: Result<Rules, Answer>) -> Result<Plan, Answer>
    ensures ok { IfOk result (λ made. (set : Ruled) × (rules ≡ Ok set) × (made ≡ plan.Rules set)) }
    ensures err { IfErr result (λ refused. rules ≡ Err refused) }
{
    match rules {
        Ok(rules) => Ok(Plan::Rules(rules)),
        Err(refused) => Err(refused),
    }
}

// A copy of this state, with what the plan changes of it.
fn planned_state(alloc: Global, state: &MetaState, made: &Plan) -> Result<MetaState, Memory>
    ensures { IfOk result (λ next. next ≡ by_plan made.now state.now) }
{
    let seed = state.seed;
    match made {
        Plan::Rules(rules) => Ok(MetaState {
            rules: rules.copy(alloc)?,
            seed,
            place: state.place.copy(alloc)?,
        }),
        Plan::Next(change) => Ok(MetaState {
            rules: state.rules.copy(alloc)?,
            seed,
            place: change.next().copy(alloc)?,
        }),
    }
}

// What this act is to make of a cluster that stands.
fn plan_on<D: Disk>(members: &Members<D>, alloc: Global, act: Act) -> Result<Plan, Answer>
    requires limits { MeetsLimits act }
    requires changes { changes_state act ≡ true }
    requires ready { IsReady members.now.net.state members.now.net.replicas members.now.net.bag }
    ensures planned { IfOk result (IsPlannedOn members.now act) }
    ensures refused { IfErr result (RefusesOn members.now act) }
{
    match act {
        Act::Namespace {
            name,
            block,
            past,
            future,
            retention,
        } => {
            let space = Space {
                name,
                block,
                past,
                future,
                retention,
            };
            of_rules(members.plan_space(alloc, space))
        }
        Act::Now { now } => of_rules(members.plan_moment(alloc, now)),
        step => match plan_change(members, alloc, &step) {
            Ok(change) => Ok(Plan::Next(change)),
            Err(refused) => Err(refused),
        },
    }
}

// Whether a placement is answered.
fn is_placed(answer: &Answer) -> bool
    ensures { result ≡ is_placed answer.now }
{
    match answer {
        Answer::Placed { .. } => true,
        _ => false,
    }
}

// Makes of a cluster that stands what was planned for an act of it, and says whether it was made; else nothing changed but disks.
fn make_on<D: Disk, X: Disks<D = D>>(
    members: &mut Members<D>,
    alloc: Global,
    disks: &mut X,
    made: Plan,
) -> (Answer, bool)
    requires planned { (a : Line) × IsPlannedOn members.old a made }
    requires may { MayChange members.old (X.depot disks.old).held }
    ensures may { MayChange members.new (X.depot disks.new).held }
    ensures makes { (a : Line) → IsPlannedOn members.old a made → MakesOn D.state (X.depot disks.old) members.old a result.0 (X.depot disks.new) members.new }
    ensures state { members.new.net.state ≡ state_after result.1 made members.old.net.state }
{
    match made {
        Plan::Rules(rules) => {
            members.set_rules(rules);
            (Answer::Done, true)
        }
        Plan::Next(change) => {
            let answer = make_change(members, alloc, disks, change);
            let stands = is_placed(&answer);
            (answer, stands)
        }
    }
}

impl<D: Disk> Cluster<D> {
    /// The cluster of these members, of which no call was made yet.
    pub fn of(members: Members<D>) -> Cluster<D>
        ensures members { result.members ≡ Some members }
        ensures calls { result.calls ≡ first_numbers }
    {
        Cluster {
            members: Some(members),
            calls: Calls::new(),
        }
    }

    /// The state, from `init` on.
    pub fn state(&self) -> Option<&MetaState>
        ensures { option_copied result ≡ state_of self.now }
    {
        match &self.members {
            None => None,
            Some(members) => Some(&members.net.state),
        }
    }

    /// What this act is to make of the cluster. Nothing changes.
    ///
    /// # Errors
    ///
    /// The answer. It serves the act, of which nothing comes.
    pub fn plan(&self, alloc: Global, act: Act) -> Result<Plan, Answer>
        requires limits { MeetsLimits act }
        requires changes { changes_state act ≡ true }
        requires ready { AreReady self.now.members }
        ensures planned { IfOk result (IsPlannedBy self.now act) }
        ensures refused { IfErr result (λ b. (depot : Depot D) → Serves D.state depot self.now act b depot self.now) }
    {
        match &self.members {
            None => {
                drop(act);
                Err(Answer::Order)
            }
            Some(members) => plan_on(members, alloc, act),
        }
    }

    /// The state that stands once the plan is made of this cluster.
    ///
    /// # Errors
    ///
    /// Want of memory.
    pub fn state_by(&self, alloc: Global, plan: &Plan) -> Result<MetaState, Memory>
        requires planned { (a : Line) × IsPlannedBy self.now a plan.now }
        ensures { IfOk result (λ next. Some next ≡ option_map (by_plan plan.now) (state_of self.now)) }
    {
        match &self.members {
            None => unreachable!(),
            Some(members) => planned_state(alloc, &members.net.state, plan),
        }
    }

    /// Makes what was planned for an act of this cluster, which is as it was then. Gives the answer, and whether it was made; else the
    /// cluster is as it was.
    pub fn make<X: Disks<D = D>>(
        &mut self,
        alloc: Global,
        disks: &mut X,
        plan: Plan,
    ) -> (Answer, bool)
        requires planned { (a : Line) × IsPlannedBy self.old a plan }
        requires owned { MayServeCluster self.old (X.depot disks.old).held }
        ensures owned { MayServeCluster self.new (X.depot disks.new).held }
        ensures served { (a : Line) → IsPlannedBy self.old a plan → Serves D.state (X.depot disks.old) self.old a result.0 (X.depot disks.new) self.new }
        ensures state { state_of self.new ≡ option_map (state_after result.1 plan) (state_of self.old) }
    {
        match &mut self.members {
            None => unreachable!(),
            Some(members) => make_on(members, alloc, disks, plan),
        }
    }

    /// The members stand where none stood.
    pub fn stand(&mut self, members: Members<D>)
        requires none { self.old.members ≡ None }
        ensures members { self.new.members ≡ Some members }
        ensures calls { self.new.calls ≡ self.old.calls }
    {
        drop(replace(&mut self.members, Some(members)));
    }
}
