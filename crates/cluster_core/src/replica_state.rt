//! What is known of one replica from its own steps.
ghost use Rattle.std.specs.Prelude.{◌≡◌, ◌++◌, [], ◌∷◌, OnOk, OnErr, IfOk};
ghost use Rattle.cluster_core.specs.Replicas.{after, fresh, step_of, replica};
ghost use Rattle.cluster_core.specs.declared.event.StepReply.TheVariants as reply;
ghost use Rattle.m3_model.specs.declared.reason.Reason.TheVariants as reason;

use crate::event::{Event, StepCall, StepReply};
use m3_model::{Duplicate, Memory, Point, Reason, Rules, Seq, Standing};
use std::alloc::Global;

/// The state of one replica, folded over its own steps.
#[derive(Drop)]
pub struct ReplicaState {
    pub standing: Standing,
    /// The placement version that gave the node its shard, while it has it.
    pub tenure: Option<u64>,
    /// The version below which it takes no write and answers no read.
    pub fence: u64,
    /// The points that it holds, also several of one key, and those that have expired since.
    pub sure: Seq<Point>,
    /// The points that it may hold: the disk failed while it took them.
    pub doubt: Seq<Point>,
    /// The fences that it may have: the disk failed while it took them.
    pub doubt_fences: Seq<u64>,
    /// The rules of its ticks, which drop what has expired.
    pub ticks: Seq<Rules>,
    /// The tenures with which it began.
    pub begun: Seq<u64>,
    /// The tenures with which it was to begin when the disk failed.
    pub tried: Seq<u64>,
}

fn add<T: Drop>(list: &mut Seq<T>, value: T) -> Result<(), Memory>
    ensures ok { OnOk result (list.new ≡ list.old ++ value ∷ []) }
    ensures err { OnErr result (list.new ≡ list.old) }
{
    match list.push(value) {
        Ok(()) => Ok(()),
        Err(_) => Err(Memory),
    }
}

fn add_all(alloc: Global, list: &mut Seq<Point>, points: &[Point]) -> Result<(), Memory>
    ensures { OnOk result (list.new ≡ list.old ++ points.now) }
{
    for point in points {
        let point = point.copy(alloc)?;
        add(list, point)?;
    }
    Ok(())
}

impl ReplicaState {
    /// Before its first step: started, with nothing. Takes no memory.
    pub fn new(alloc: Global) -> ReplicaState
        ensures { result ≡ fresh }
    {
        ReplicaState {
            standing: Standing::Boot,
            tenure: None,
            fence: 0,
            sure: Seq::new(alloc),
            doubt: Seq::new(alloc),
            doubt_fences: Seq::new(alloc),
            ticks: Seq::new(alloc),
            begun: Seq::new(alloc),
            tried: Seq::new(alloc),
        }
    }

    /// The state after a step. Want of memory leaves a state that is no longer that of the replica.
    pub fn step(&mut self, alloc: Global, call: &StepCall, said: &StepReply) -> Result<(), Memory>
        ensures { OnOk result (self.new ≡ after self.old call.now said.now) }
    {
        match said {
            StepReply::Done => self.done(alloc, call),
            StepReply::Began { fence, points } => self.began(alloc, call, *fence, points),
            StepReply::Count { n } => self.counted(alloc, call, *n),
            StepReply::Refused { reason } => self.refused(alloc, call, reason),
            _ => Ok(()),
        }
    }

    fn done(&mut self, alloc: Global, call: &StepCall) -> Result<(), Memory>
        ensures { OnOk result (self.new ≡ after self.old call.now reply.Done) }
    {
        match call {
            StepCall::Put { point, .. } => {
                let point = point.copy(alloc)?;
                add(&mut self.sure, point)?;
            }
            StepCall::Fence { version } => {
                if self.fence <= *version {
                    self.fence = *version;
                }
            }
            StepCall::End => self.tenure = None,
            StepCall::Stop => self.standing = Standing::Down,
            StepCall::Restart => self.standing = Standing::Boot,
            _ => {}
        }
        Ok(())
    }

    fn began(
        &mut self,
        alloc: Global,
        call: &StepCall,
        fence: u64,
        points: &Seq<Point>,
    ) -> Result<(), Memory>
        ensures { OnOk result (self.new ≡ after self.old call.now (reply.Began fence points.now)) }
    {
        match call {
            StepCall::Begin { tenure } => {
                self.standing = Standing::Open;
                self.tenure = Some(*tenure);
                self.fence = fence;
                add_all(alloc, &mut self.sure, points.as_slice())?;
                self.doubt = Seq::new(alloc);
                self.doubt_fences = Seq::new(alloc);
                add(&mut self.begun, *tenure)?;
            }
            _ => {}
        }
        Ok(())
    }

    fn counted(&mut self, alloc: Global, call: &StepCall, n: u64) -> Result<(), Memory>
        ensures { OnOk result (self.new ≡ after self.old call.now (reply.Count n)) }
    {
        match call {
            StepCall::Merge { page } => add_all(alloc, &mut self.sure, page.points.as_slice())?,
            StepCall::Tick { rules } => {
                let rules = rules.copy(alloc)?;
                add(&mut self.ticks, rules)?;
            }
            _ => {}
        }
        Ok(())
    }

    fn refused(&mut self, alloc: Global, call: &StepCall, why: &Reason) -> Result<(), Memory>
        ensures { OnOk result (self.new ≡ after self.old call.now (reply.Refused why.now)) }
    {
        match why {
            Reason::Disk => self.failed(alloc, call),
            Reason::Corrupt(_) => {
                self.standing = Standing::Down;
                if let StepCall::Tick { rules } = call {
                    let rules = rules.copy(alloc)?;
                    add(&mut self.ticks, rules)?;
                }
                Ok(())
            }
            _ => Ok(()),
        }
    }

    // The disk failed: what the step was to take is in doubt.
    fn failed(&mut self, alloc: Global, call: &StepCall) -> Result<(), Memory>
        ensures { OnOk result (self.new ≡ after self.old call.now (reply.Refused reason.Disk)) }
    {
        self.standing = Standing::Down;
        match call {
            StepCall::Begin { tenure } => {
                add(&mut self.doubt_fences, *tenure)?;
                add(&mut self.tried, *tenure)?;
            }
            StepCall::Put { point, .. } => {
                let point = point.copy(alloc)?;
                add(&mut self.doubt, point)?;
            }
            StepCall::Merge { page } => add_all(alloc, &mut self.doubt, page.points.as_slice())?,
            StepCall::Fence { version } => add(&mut self.doubt_fences, *version)?,
            StepCall::Tick { rules } => {
                let rules = rules.copy(alloc)?;
                add(&mut self.ticks, rules)?;
            }
            _ => {}
        }
        Ok(())
    }

    fn take(&mut self, alloc: Global, node: u8, shard: u32, event: &Event) -> Result<(), Memory>
        ensures { OnOk result (self.new ≡ step_of node shard self.old event.now) }
    {
        match event {
            Event::Step {
                node: n,
                shard: s,
                call,
                reply,
            } if *n == node && *s == shard => self.step(alloc, call, reply),
            _ => Ok(()),
        }
    }
}

/// The state of the replica of this node and shard after these events. Takes time in proportion to them.
pub fn replica_of(
    alloc: Global,
    node: u8,
    shard: u32,
    events: &[Event],
) -> Result<ReplicaState, Memory>
    ensures { IfOk result (λ r. r ≡ replica node shard events.now) }
{
    let mut state = ReplicaState::new(alloc);
    for event in events {
        state.take(alloc, node, shard, event)?;
    }
    Ok(state)
}
