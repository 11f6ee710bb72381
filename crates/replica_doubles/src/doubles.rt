//! A double of a cluster's replicas: machines over equal disks, and the list of events that calls of them make. A cluster doesn't tell
//! each reply of its replicas, and of its list only how long it is. The double of a replica, which is called as that is, gives the same
//! replies, and all of them are seen.
ghost use Rattle.std.specs.Prelude.{◌≡◌, ◌<◌, IsTrue};
ghost use Rattle.std.specs.List.{All};
ghost use Rattle.m3_model.specs.Reads.{space_picked};
ghost use Rattle.wire_bytes.specs.Entries.{IsBounded};

use crate::heard::Heard;
use cluster_core::{Asked, Event, StepCall, StepReply};
use cluster_words::letter_of_reason;
use m3_model::limits::{MOST_ID_BYTES, MOST_NAMESPACES, TIME_END};
use m3_model::{Duplicate, Memory, Pick, Point, Reason, Report, Rules};
use m3_outside::Disk;
use net_plan::LateWrite;
use replica_exchange::Slot;
use replica_exchange::of_replica_machine::{Began, Machine};
use std::alloc::Global;

/// So many nodes have each shard.
pub const NODES: u8 = 3;

/// By what a client's call reaches the replicas of a shard.
#[derive(Clone, Copy)]
pub struct Sending {
    /// The number of the call.
    pub number: u64,
    pub shard: u32,
    pub version: u64,
}

/// Which times a read asks for.
#[derive(Clone, Copy)]
pub struct Range {
    pub from: u64,
    pub to: u64,
}

/// A call of a replica that no client makes.
#[derive(Clone, Copy)]
pub enum Change {
    Begin { tenure: u64 },
    Stop,
    Restart { pick: u64 },
}

/// What all replicas are asked for from time to time.
#[derive(Clone, Copy)]
pub enum Job {
    Tick,
    Flush,
}

#[derive(Drop)]
pub struct Double<D: Disk> {
    // By shard, and in it by node.
    machines: Vec<Machine<D>>,
    pub events: Vec<Event>,
    /// The late writes, in their order.
    pub late: Vec<LateWrite>,
    pub heard: Heard,
}

// No list has it: a message that is lost gets to no machine.
fn no_reply() -> StepReply {
    StepReply::Refused {
        reason: Reason::Cut,
    }
}

fn is_bounded(point: &Point) -> bool
    ensures { IsTrue result → IsBounded point.now }
{
    let _value = point.v;
    let len = point.id.as_str().len();
    let is_named = 1 <= len && len <= MOST_ID_BYTES;
    is_named && (point.ns as usize) < MOST_NAMESPACES && point.t < TIME_END
}

fn done_or(said: Result<(), Reason>) -> StepReply {
    match said {
        Ok(()) => StepReply::Done,
        Err(reason) => StepReply::Refused { reason },
    }
}

fn put_on<D: Disk>(
    machine: &mut Machine<D>,
    rules: &Rules,
    version: u64,
    point: &Point,
) -> StepReply {
    if rules.spaces.len() <= point.ns as usize || !is_bounded(point) {
        return no_reply();
    }
    done_or(machine.put(rules, version, point))
}

/// The namespace of a pick.
pub fn space_of(pick: &Pick) -> u8
    ensures { result ≡ space_picked pick.now }
{
    match pick {
        Pick::One { ns, .. } => *ns,
        Pick::Match { ns, .. } => *ns,
    }
}

fn read_on<D: Disk>(
    machine: &mut Machine<D>,
    rules: &Rules,
    version: u64,
    pick: &Pick,
    range: Range,
) -> StepReply {
    if rules.spaces.len() <= space_of(pick) as usize {
        return no_reply();
    }
    match machine.read(rules, version, pick, range.from, range.to) {
        Ok(series) => StepReply::Found { series },
        Err(reason) => StepReply::Refused { reason },
    }
}

fn begin_on<D: Disk>(machine: &mut Machine<D>, tenure: u64) -> StepReply {
    match machine.boot(tenure) {
        Ok(Began { fence, points }) => StepReply::Began { fence, points },
        Err(reason) => StepReply::Refused { reason },
    }
}

fn change_on<D: Disk>(machine: &mut Machine<D>, change: Change) -> StepReply {
    match change {
        Change::Begin { tenure } => begin_on(machine, tenure),
        Change::Stop => {
            machine.stop();
            StepReply::Done
        }
        Change::Restart { pick } => done_or(machine.restart(pick)),
    }
}

fn call_of_change(change: Change) -> StepCall {
    match change {
        Change::Begin { tenure } => StepCall::Begin { tenure },
        Change::Stop => StepCall::Stop,
        Change::Restart { .. } => StepCall::Restart,
    }
}

fn count_or(said: Result<u64, Reason>) -> StepReply {
    match said {
        Ok(n) => StepReply::Count { n },
        Err(reason) => StepReply::Refused { reason },
    }
}

fn run_on<D: Disk>(machine: &mut Machine<D>, job: Job, rules: &Rules) -> StepReply
    requires sizes { All (λ space. 0 < space.block) rules.now.spaces }
{
    match job {
        Job::Tick => count_or(machine.tick(rules)),
        Job::Flush => count_or(machine.flush(rules)),
    }
}

fn call_of_job(alloc: Global, job: Job, rules: &Rules) -> Result<StepCall, Memory> {
    let rules = rules.copy(alloc)?;
    Ok(match job {
        Job::Tick => StepCall::Tick { rules },
        Job::Flush => StepCall::Flush { rules },
    })
}

fn put_call(
    alloc: Global,
    sending: Sending,
    rules: &Rules,
    point: &Point,
) -> Result<StepCall, Memory> {
    Ok(StepCall::Put {
        client: 0,
        number: sending.number,
        rules: rules.copy(alloc)?,
        version: sending.version,
        point: point.copy(alloc)?,
    })
}

fn read_call(
    alloc: Global,
    sending: Sending,
    rules: &Rules,
    pick: &Pick,
    range: Range,
) -> Result<StepCall, Memory> {
    Ok(StepCall::Read {
        client: 0,
        number: sending.number,
        rules: rules.copy(alloc)?,
        version: sending.version,
        pick: pick.copy(alloc)?,
        from: range.from,
        to: range.to,
    })
}

fn slot_at(sending: Sending, node: u8) -> Slot {
    Slot {
        shard: sending.shard,
        node,
    }
}

fn position_of(slot: Slot) -> usize {
    (slot.shard as usize)
        .saturating_mul(NODES as usize)
        .saturating_add(slot.node as usize)
}

impl<D: Disk> Double<D> {
    /// Over these machines, by shard, and in it by node.
    pub fn new(alloc: Global, machines: Vec<Machine<D>>) -> Double<D> {
        Double {
            machines,
            events: Vec::new(alloc),
            late: Vec::new(alloc),
            heard: Heard::new(alloc),
        }
    }

    /// Adds an event.
    pub fn push(&mut self, event: Event) -> Result<(), Memory> {
        Ok(self.events.push(event)?)
    }

    fn ask(&mut self, slot: Slot, call: StepCall) -> Result<(), Memory> {
        self.push(Event::Ask {
            asked: Asked::Step {
                node: slot.node,
                shard: slot.shard,
                call,
            },
        })
    }

    fn answer(&mut self, slot: Slot, call: StepCall, reply: StepReply) -> Result<(), Memory> {
        self.push(Event::Step {
            node: slot.node,
            shard: slot.shard,
            call,
            reply,
        })
    }

    /// Puts the point on the node's replica: an Ask and the step with its reply come to the events.
    pub fn put(
        &mut self,
        alloc: Global,
        sending: Sending,
        node: u8,
        rules: &Rules,
        point: &Point,
    ) -> Result<(), Memory> {
        let slot = slot_at(sending, node);
        self.ask(slot, put_call(alloc, sending, rules, point)?)?;
        let call = put_call(alloc, sending, rules, point)?;
        let reply = match self.machines.get_mut(position_of(slot)) {
            Some(machine) => put_on(machine, rules, sending.version, point),
            None => no_reply(),
        };
        self.answer(slot, call, reply)
    }

    /// Reads from the node's replica, with such events.
    pub fn read(
        &mut self,
        alloc: Global,
        sending: Sending,
        node: u8,
        rules: &Rules,
        pick: &Pick,
        range: Range,
    ) -> Result<(), Memory> {
        let slot = slot_at(sending, node);
        self.ask(slot, read_call(alloc, sending, rules, pick, range)?)?;
        let call = read_call(alloc, sending, rules, pick, range)?;
        let reply = match self.machines.get_mut(position_of(slot)) {
            Some(machine) => read_on(machine, rules, sending.version, pick, range),
            None => no_reply(),
        };
        self.answer(slot, call, reply)
    }

    /// Changes the replica at the slot, with such events.
    pub fn change(&mut self, slot: Slot, change: Change) -> Result<(), Memory> {
        self.ask(slot, call_of_change(change))?;
        let reply = match self.machines.get_mut(position_of(slot)) {
            Some(machine) => change_on(machine, change),
            None => no_reply(),
        };
        self.answer(slot, call_of_change(change), reply)
    }

    /// Has the replica at the slot do the job, with such events.
    pub fn run(&mut self, alloc: Global, slot: Slot, job: Job, rules: &Rules) -> Result<(), Memory>
        requires sizes { All (λ space. 0 < space.block) rules.now.spaces }
    {
        self.ask(slot, call_of_job(alloc, job, rules)?)?;
        let call = call_of_job(alloc, job, rules)?;
        let reply = match self.machines.get_mut(position_of(slot)) {
            Some(machine) => run_on(machine, job, rules),
            None => no_reply(),
        };
        self.answer(slot, call, reply)
    }

    /// The replica at the slot reports, which nobody asks for: its step alone comes to the events.
    pub fn report(&mut self, slot: Slot) -> Result<(), Memory> {
        let reply = match self.machines.get(position_of(slot)) {
            Some(machine) => StepReply::Told {
                report: machine.report(),
            },
            None => no_reply(),
        };
        self.answer(slot, StepCall::Report, reply)
    }

    /// What the last step counted, if it did.
    pub fn counted(&self) -> Option<u64> {
        match self.events.as_slice().last() {
            Some(
                Event::Step {
                    reply: StepReply::Count { n },
                    ..
                },
            ) => Some(*n),
            _ => None,
        }
    }

    /// What the last step reported, if it did.
    pub fn reported(&self) -> Option<Report> {
        match self.events.as_slice().last() {
            Some(
                Event::Step {
                    reply: StepReply::Told { report },
                    ..
                },
            ) => Some(*report),
            _ => None,
        }
    }

    /// The letter of the reason for which the last step was refused, if it was.
    pub fn refusal(&self) -> Option<char> {
        match self.events.as_slice().last() {
            Some(
                Event::Step {
                    reply: StepReply::Refused { reason },
                    ..
                },
            ) => Some(letter_of_reason(reason)),
            _ => None,
        }
    }

    /// The node is heard to answer as the last step does.
    pub fn hear(&mut self, node: u8) -> Result<(), Memory> {
        let why = self.refusal();
        self.heard.add(node, why)
    }

    /// What the last step found in the namespace is joined to what others did.
    pub fn join_found(&mut self, ns: u8) -> Result<(), Memory> {
        match self.events.as_slice().last() {
            Some(
                Event::Step {
                    reply: StepReply::Found { series },
                    ..
                },
            ) => self.heard.join(ns, series.as_slice()),
            _ => Ok(()),
        }
    }
}
