//! Whether something was asked for, once more than it was done.
ghost use Rattle.std.specs.Prelude.{◌↔◌, IsTrue};
ghost use Rattle.cluster_core.specs.Asks.{MatchesAsked, IsAskFor, IsLike, WasAsked};

use cluster_core::{Asked, Event};
use equality::Same;

fn names(asked: &Asked, event: &Event) -> bool
    ensures { IsTrue result ↔ MatchesAsked asked.now event.now }
{
    match asked {
        Asked::Step { node, shard, call } => {
            matches!(event, Event::Step { node: n, shard: s, call: c, .. }
                if n == node && s == shard && c.is_same(call))
        }
        Asked::Place { place, done } => {
            matches!(event, Event::Place { place: p, done: d } if p.is_same(place) && d.is_same(done))
        }
        Asked::Clock { rules } => { matches!(event, Event::Clock { rules: r } if r.is_same(rules)) }
    }
}

fn is_ask_for(event: &Event, ask: &Event) -> bool
    ensures { IsTrue result ↔ IsAskFor event.now ask.now }
{
    match ask {
        Event::Ask { asked } => names(asked, event),
        _ => false,
    }
}

fn is_like(event: &Event, other: &Event) -> bool
    ensures { IsTrue result ↔ IsLike event.now other.now }
{
    match event {
        Event::Step {
            node,
            shard,
            call,
            ..
        } => {
            matches!(other, Event::Step { node: n, shard: s, call: c, .. }
                if n == node && s == shard && c.is_same(call))
        }
        Event::Place { place, done } => {
            matches!(other, Event::Place { place: p, done: d } if p.is_same(place) && d.is_same(done))
        }
        Event::Clock { rules } => { matches!(other, Event::Clock { rules: r } if r.is_same(rules)) }
        _ => false,
    }
}

/// Whether more Asks for the event stand earlier than events like it, the first two events apart.
pub fn was_asked(past: &[Event], event: &Event) -> bool
    ensures { IsTrue result ↔ WasAsked past.now event.now }
{
    let mut asks: usize = 0;
    let mut answered: usize = 0;
    for (position, earlier) in past.iter().enumerate() {
        if is_ask_for(event, earlier) {
            asks += 1;
        }
        if position >= 2 && is_like(event, earlier) {
            answered += 1;
        }
    }
    answered < asks
}
