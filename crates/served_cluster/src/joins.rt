//! The bootstrap of a node in parts, so that a state can be saved between the placement that ends moves and the ends of tenures.
ghost use Rattle.std.specs.Prelude.{◌≡◌, Some, IfOk, option_map};
ghost use Rattle.served_cluster.specs.Joins.{EndsSources, HasMarked, MayEndSources, MayMark, OpensNode, by_marking};
ghost use Rattle.served_cluster.specs.Owned.{AreReady, StillServes};
ghost use Rattle.served_cluster.specs.Plans.{state_of};

use crate::cluster::Cluster;
use line_tracks::of_cluster_joins::{Booting, Marked, Marking, end_sources, mark, open_node};
use m3_model::{Answer, Duplicate, Memory, MetaState, Text};
use m3_outside::Disk;
use std::alloc::Global;

// A copy of this state, with the placement that is to be marked.
fn marked_state(alloc: Global, state: &MetaState, marking: &Marking) -> Result<MetaState, Memory>
    ensures { IfOk result (λ next. next ≡ by_marking marking.now state.now) }
{
    Ok(MetaState {
        rules: state.rules.copy(alloc)?,
        seed: state.seed,
        place: marking.next().copy(alloc)?,
    })
}

impl<D: Disk> Cluster<D> {
    /// Has the replicas of a node begin, each of one shard or of all, and those that join their shards be joined. Where some were joined, they are to be
    /// marked by `mark`, or given up; else the line is answered. The state stays either way.
    pub fn open_node(&mut self, alloc: Global, name: Text, asked: Option<u32>) -> Booting
        requires ready { AreReady self.old.members }
        ensures opens { OpensNode D.state self.old name asked result self.new }
        ensures state { state_of self.new ≡ state_of self.old }
        ensures still { StillServes self.old self.new }
    {
        let Some(members) = &mut self.members else {
            drop(name);
            return Booting::Answered(Answer::Order);
        };
        open_node(members, alloc, name, asked)
    }

    /// The state that stands once this is marked.
    ///
    /// # Errors
    ///
    /// Want of memory.
    pub fn state_with(&self, alloc: Global, marking: &Marking) -> Result<MetaState, Memory>
        requires { MayMark self.now marking.now }
        ensures { IfOk result (λ next. Some next ≡ option_map (by_marking marking.now) (state_of self.now)) }
    {
        match &self.members {
            None => unreachable!(),
            Some(members) => marked_state(alloc, &members.net.state, marking),
        }
    }

    /// Marks the shards that a node joined: the placement in which their moves are over stands then. The tenures of the nodes are to end next from which it
    /// took over. It can't be refused, and takes no memory.
    pub fn mark(&mut self, marking: Marking) -> Marked
        requires { MayMark self.old marking }
        ensures marked { HasMarked D.state self.old marking result self.new }
        ensures state { state_of self.new ≡ option_map (by_marking marking) (state_of self.old) }
        ensures still { StillServes self.old self.new }
    {
        match &mut self.members {
            None => unreachable!(),
            Some(members) => mark(members, marking),
        }
    }

    /// Ends the tenures of the nodes from which a node took over, whose shards are marked, and answers its line. It can't be refused, and takes no memory.
    pub fn end_sources(&mut self, marked: Marked) -> Answer
        requires { MayEndSources self.old marked }
        ensures { EndsSources D.state self.old marked result self.new }
    {
        match &mut self.members {
            None => unreachable!(),
            Some(members) => end_sources(members, marked),
        }
    }
}
