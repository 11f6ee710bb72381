use cluster_core::{Event, ReplicaState, StepCall, StepReply, replica_of};
use m3_model::{Memory, Seq};
use std::alloc::Global;
use std::test::Fail;

fn fence(node: u8, version: u64) -> Event {
    Event::Step {
        node,
        shard: 0,
        call: StepCall::Fence { version },
        reply: StepReply::Done,
    }
}

// The first node begins and is fenced, and so is another node.
fn fenced_events(alloc: Global) -> Result<Vec<Event>, Memory> {
    let mut events = Vec::new(alloc);
    events.push(Event::Step {
        node: 0,
        shard: 0,
        call: StepCall::Begin { tenure: 1 },
        reply: StepReply::Began {
            fence: 1,
            points: Seq::new(alloc),
        },
    })?;
    events.push(fence(0, 3))?;
    events.push(fence(0, 2))?;
    events.push(fence(1, 9))?;
    Ok(events)
}

fn folded(alloc: Global) -> Result<ReplicaState, Memory> {
    let events = fenced_events(alloc)?;
    replica_of(alloc, 0, 0, &events)
}

// How the first node stands after the events, its fence and its tenure.
fn told(alloc: Global) -> Result<String, Fail> {
    let state = folded(alloc)?;
    Ok(format!(in alloc; "{:?} {} {:?}", state.standing, state.fence, state.tenure)?)
}

#[test]
fn replica_is_folded_over_its_own_steps(rt: HostRuntime) -> Result<(), Fail> {
    assert_eq!(rt; told(rt.alloc())?.as_str(), "Open 3 Some(1)");
    Ok(())
}
