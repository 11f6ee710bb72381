//! Whether something stands earlier in a list of events.
ghost use Rattle.std.specs.Prelude.{◌≡◌, ◌↔◌, IsTrue, MatchOption, None, Some, slice_get};
ghost use Rattle.cluster_core.specs.Earlier.{GivesTenure, GavePage, HasClock, HasSend, HasTenure, HasPage};

use cluster_core::{Event, StepReply};
use equality::Same;
use m3_model::{Assignment, Page, Placement, Point, Rules};

/// The assignments of the shard, where the placement has it.
pub fn shard_of(place: &Placement, shard: u32) -> Option<&[Assignment]>
    ensures { MatchOption result (slice_get place.now.shards shard ≡ None) (λ assignments. slice_get place.now.shards shard ≡ Some assignments.now) }
{
    place
        .shards
        .as_slice()
        .get(shard as usize)
        .map(|assignments| assignments.as_slice())
}

/// Whether an earlier Clock has the rules.
pub fn has_clock(past: &[Event], rules: &Rules) -> bool
    ensures { IsTrue result ↔ HasClock past.now rules.entry.now }
{
    past.iter().any(|e| matches!(e, Event::Clock { rules: ruled } if ruled.is_same(rules)))
}

/// Whether an earlier Send has this version, shard and point.
pub fn has_send(past: &[Event], version: u64, shard: u32, point: &Point) -> bool
    ensures { IsTrue result ↔ HasSend past.now version shard point.now }
{
    past.iter().any(
        |e| matches!(e, Event::Send { version: v, shard: s, point: p } if *v == version && *s == shard && p.is_same(point)),
    )
}

fn gives_tenure(event: &Event, node: u8, shard: u32, tenure: u64) -> bool
    ensures { IsTrue result ↔ GivesTenure node shard tenure event.now }
{
    match event {
        Event::Place { place, .. } => match shard_of(place, shard) {
            Some(assignments) => assignments
                .iter()
                .any(|a| a.node == node && a.tenure == tenure),
            None => false,
        },
        _ => false,
    }
}

/// Whether an earlier Place gives the node the shard with this tenure.
pub fn has_tenure(past: &[Event], node: u8, shard: u32, tenure: u64) -> bool
    ensures { IsTrue result ↔ HasTenure past.now node shard tenure }
{
    past.iter().any(|e| gives_tenure(e, node, shard, tenure))
}

fn gave_page(event: &Event, shard: u32, page: &Page) -> bool
    ensures { IsTrue result ↔ GavePage shard page.now event.now }
{
    match event {
        Event::Step {
            shard: s,
            reply: StepReply::Paged { page: given },
            ..
        } => *s == shard && given.is_same(page),
        _ => false,
    }
}

/// Whether some replica of the shard gave the page.
pub fn has_page(past: &[Event], shard: u32, page: &Page) -> bool
    ensures { IsTrue result ↔ HasPage past.now shard page.now }
{
    past.iter().any(|e| gave_page(e, shard, page))
}
