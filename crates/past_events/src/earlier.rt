//! What else stands earlier in a list of events.
ghost use Rattle.std.specs.Prelude.{◌≡◌, ◌↔◌, IsTrue, MatchOption, None, Some};
ghost use Rattle.m3_model.specs.Members.{IsIn};
ghost use Rattle.placement_core.specs.Shards.{counted};
ghost use Rattle.cluster_core.specs.Earlier.{PlacesShard, CountsNodes, TookPoint, HasShard, AreCounted, last_place, last_clock};
ghost use Rattle.past_events.specs.Takes.{HasTaken};

use cluster_core::{Event, StepCall, StepReply};
use equality::Same;
use event_facts::shard_of;
use m3_model::{Assignment, Placement, Point, Rules, ShardState};

fn is_counted(shard: &[Assignment], node: u8) -> bool
    ensures { IsTrue result ↔ IsIn (counted shard.now) node }
{
    shard
        .iter()
        .any(|a| a.node == node && a.state == ShardState::Available)
}

fn places_shard(event: &Event, version: u64, shard: u32) -> bool
    ensures { IsTrue result ↔ PlacesShard version shard event.now }
{
    match event {
        Event::Place { place, .. } => place.version == version && shard_of(place, shard).is_some(),
        _ => false,
    }
}

/// Whether an earlier Place has this version, and the shard.
pub fn has_shard(past: &[Event], version: u64, shard: u32) -> bool
    ensures { IsTrue result ↔ HasShard past.now version shard }
{
    past.iter().any(|e| places_shard(e, version, shard))
}

fn counts_nodes(event: &Event, version: u64, shard: u32, nodes: &[u8]) -> bool
    ensures { IsTrue result ↔ CountsNodes version shard nodes.now event.now }
{
    match event {
        Event::Place { place, .. } => match shard_of(place, shard) {
            Some(assignments) => {
                place.version == version && nodes.iter().all(|n| is_counted(assignments, *n))
            }
            None => false,
        },
        _ => false,
    }
}

/// Whether the nodes all count for the shard in the placement of this version.
pub fn are_counted(past: &[Event], version: u64, shard: u32, nodes: &[u8]) -> bool
    ensures { IsTrue result ↔ AreCounted past.now version shard nodes.now }
{
    past.iter().any(|e| counts_nodes(e, version, shard, nodes))
}

fn took_point(event: &Event, node: u8, shard: u32, version: u64, point: &Point) -> bool
    ensures { IsTrue result ↔ TookPoint node shard version point.now event.now }
{
    match event {
        Event::Step {
            node: n,
            shard: s,
            call: StepCall::Put {
                version: v,
                point: p,
                ..
            },
            reply: StepReply::Done,
        } => *n == node && *s == shard && *v == version && p.is_same(point),
        _ => false,
    }
}

/// Whether the replica took the point at this version.
#[tactic(auto, unfolding(crate::specs::Takes::HasTaken))]
pub fn has_put(past: &[Event], node: u8, shard: u32, version: u64, point: &Point) -> bool
    ensures { IsTrue result ↔ HasTaken past.now shard version point.now node }
{
    past.iter()
        .any(|e| took_point(e, node, shard, version, point))
}

/// The placement that stands.
pub fn last_place(past: &[Event]) -> Option<&Placement>
    ensures { MatchOption result (last_place past.now ≡ None) (λ place. last_place past.now ≡ Some place.now) }
{
    let mut last = None;
    for event in past {
        if let Event::Place { place, .. } = event {
            last = Some(place);
        }
    }
    last
}

/// The moment and the namespaces that stand.
pub fn last_clock(past: &[Event]) -> Option<&Rules>
    ensures { MatchOption result (last_clock past.now ≡ None) (λ ruled. last_clock past.now ≡ Some ruled.now) }
{
    let mut last = None;
    for event in past {
        if let Event::Clock { rules } = event {
            last = Some(rules);
        }
    }
    last
}
