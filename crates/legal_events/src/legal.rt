//! Which lists of events are legal.
ghost use Rattle.std.specs.Prelude.{◌≡◌, ◌++◌, ◌↔◌, true, IsTrue, IfOk, List, MatchOption};
ghost use Rattle.std.specs.List.{All};
ghost use Rattle.m3_model.specs.Members.{IsIn};
ghost use Rattle.m3_model.specs.Reads.{points_in, Covers};
ghost use Rattle.cluster_core.specs.Asks.{StepWasAsked};
ghost use Rattle.cluster_core.specs.Core.{ListKeepsPoints};
ghost use Rattle.cluster_core.specs.Earlier.{GaveAnswer};
ghost use Rattle.legal_events.specs.Fetches.{CanJoin};
ghost use Rattle.past_events.specs.Takes.{HasTaken};
ghost use Rattle.legal_events.specs.Sumless.{IsAskedStep, HasNoSums};
ghost use Rattle.cluster_core.specs.Legal.{IsNextClock, JoinedThere, JoinedAt, IsNextPlace, AcksSend, IsAck, IsJoined, EndsFetch, IsFetched, Lawful, LawfulAt, Legal};
ghost use Rattle.cluster_core.specs.Lists.{IsPrefix};

use cluster_core::{Event, StepCall, StepReply, replica_of};
use equality::{Same, are_same};
use event_facts::{
    Distinct, covers, has_clock, has_point, is_ordered, points_in, shard_of, space_picked,
};
use lawful_steps::is_lawful_step;
use m3_model::{
    Assignment, Duplicate, Memory, Pick, Placement, Point, Rules, Seq, Series, ShardState, Space,
};
use past_events::{are_counted, has_joined, has_put, has_shard, last_clock, last_place, was_asked};
use placement_core::{ascend, is_lawful};
use placement_steps::is_step;
use std::alloc::Global;

fn is_prefix(first: &[Space], whole: &[Space]) -> bool
    ensures { IsTrue result ↔ IsPrefix first.now whole.now }
{
    first.len() <= whole.len() && are_same(&whole[..first.len()], first)
}

fn is_next_clock(past: &[Event], rules: &Rules) -> bool
    ensures { IsTrue result ↔ IsNextClock past.now rules.entry.now }
{
    match last_clock(past) {
        Some(last) => {
            last.now <= rules.now && is_prefix(last.spaces.as_slice(), rules.spaces.as_slice())
        }
        None => false,
    }
}

// Whether the assignment isn't the node's, or doesn't join, or has joined.
fn has_joined_there(
    alloc: Global,
    past: &[Event],
    rf: u32,
    assignments: &[Assignment],
    shard: u32,
    node: u8,
    joining: &Assignment,
) -> Result<bool, Memory>
    ensures { IfOk result (λ b. IsTrue b ↔ JoinedThere past.now rf assignments.now shard node joining.now) }
{
    if joining.node != node || joining.state != ShardState::Initializing {
        return Ok(true);
    }
    has_joined(alloc, past, rf, assignments, shard, node, joining.tenure)
}

fn joined_at(
    alloc: Global,
    past: &[Event],
    place: &Placement,
    shard: u32,
    node: u8,
) -> Result<bool, Memory>
    ensures { IfOk result (λ b. IsTrue b ↔ JoinedAt past.now place.now shard node) }
{
    let Some(assignments) = shard_of(place, shard) else {
        return Ok(true);
    };
    for joining in assignments {
        if !has_joined_there(alloc, past, place.rf, assignments, shard, node, joining)? {
            return Ok(false);
        }
    }
    Ok(true)
}

fn have_joined(
    alloc: Global,
    past: &[Event],
    place: &Placement,
    done: &[(u32, u8)],
) -> Result<bool, Memory>
    ensures { IfOk result (λ b. IsTrue b ↔ All (λ d. JoinedAt past.now place.now d.0 d.1) done.now) }
{
    for (shard, node) in done {
        if !joined_at(alloc, past, place, *shard, *node)? {
            return Ok(false);
        }
    }
    Ok(true)
}

fn is_next_place(
    alloc: Global,
    past: &[Event],
    place: &Placement,
    done: &[(u32, u8)],
) -> Result<bool, Memory>
    ensures { IfOk result (λ b. IsTrue b ↔ IsNextPlace past.now place.now done.now) }
{
    let Some(last) = last_place(past) else {
        return Ok(false);
    };
    let joined = have_joined(alloc, past, last, done)?;
    Ok(joined && is_step(last, place, done))
}

fn have_put(past: &[Event], nodes: &[u8], shard: u32, version: u64, point: &Point) -> bool
    ensures { IsTrue result ↔ All (HasTaken past.now shard version point.now) nodes.now }
{
    nodes
        .iter()
        .all(|n| has_put(past, *n, shard, version, point))
}

fn acks_send(past: &[Event], nodes: &[u8], sent: &Event) -> bool
    ensures { IsTrue result ↔ AcksSend past.now nodes.now sent.now }
{
    match sent {
        Event::Send {
            version,
            shard,
            point,
        } => {
            if !ascend::<u8, Distinct>(nodes) {
                return false;
            }
            if !are_counted(past, *version, *shard, nodes) {
                return false;
            }
            have_put(past, nodes, *shard, *version, point)
        }
        _ => false,
    }
}

fn is_ack(past: &[Event], send: u64, nodes: &[u8]) -> bool
    ensures { IsTrue result ↔ IsAck past.now send nodes.now }
{
    match past.get(send as usize) {
        Some(sent) => acks_send(past, nodes, sent),
        None => false,
    }
}

// The answer that the node gave to the fetch in this event.
fn answer_of<'a>(event: &'a Event, node: u8, fetch: &Event) -> Option<&'a [Series]>
    ensures { MatchOption result ((answer : List Series) → ¬ GaveAnswer node fetch.now answer event.now) (λ answer. GaveAnswer node fetch.now answer.now event.now) }
{
    match fetch {
        Event::FetchStart {
            version,
            shard,
            rules,
            pick,
            from,
            to,
        } => match event {
            Event::Step {
                node: n,
                shard: s,
                call: StepCall::Read {
                    rules: r,
                    version: v,
                    pick: p,
                    from: f,
                    to: t,
                    ..
                },
                reply: StepReply::Found { series },
            } if *n == node
                && s == shard
                && v == version
                && f == from
                && t == to
                && r.is_same(rules)
                && p.is_same(pick) => { Some(series.as_slice()) }
            _ => None,
        },
        _ => None,
    }
}

// The points, and after them those of an answer.
fn with_points(
    alloc: Global,
    points: &[Point],
    ns: u8,
    answer: &[Series],
) -> Result<Vec<Point>, Memory>
    ensures { IfOk result (λ all. all.items ≡ points.now ++ points_in ns answer.now) }
{
    let mut all = points_in(alloc, ns, answer)?;
    let mut whole = Vec::new(alloc);
    for point in points {
        whole.push(point.copy(alloc)?)?;
    }
    whole.append(&mut all)?;
    Ok(whole)
}

fn are_among(some: &[Point], points: &[Point]) -> bool
    ensures { IsTrue result ↔ All (IsIn points.now) some.now }
{
    some.iter().all(|p| has_point(points, p))
}

fn are_reached(points: &[Point], joined: &[Point]) -> bool
    ensures { IsTrue result ↔ All (Covers joined.now) points.now }
{
    points.iter().all(|p| covers(joined, p))
}

// Whether the points so far, with those of one answer of each of the nodes, have just the joined ones. Each answer of a
// node is tried that the joined ones cover: at most five nodes count for a shard.
fn can_join(
    alloc: Global,
    since: &[Event],
    fetch: &Event,
    ns: u8,
    nodes: &[u8],
    so_far: &[Point],
    joined: &[Point],
) -> Result<bool, Memory>
    ensures { IfOk result (λ b. IsTrue b ↔ CanJoin since.now fetch.now ns nodes.now so_far.now joined.now) }
{
    if !are_reached(so_far, joined) {
        return Ok(false);
    }
    match nodes {
        [] => Ok(are_among(joined, so_far)),
        [node, rest @ ..] => {
            for event in since {
                let Some(answer) = answer_of(event, *node, fetch) else {
                    continue;
                };
                let points = with_points(alloc, so_far, ns, answer)?;
                if can_join(alloc, since, fetch, ns, rest, &points, joined)? {
                    return Ok(true);
                }
            }
            Ok(false)
        }
    }
}

fn is_joined(
    alloc: Global,
    since: &[Event],
    fetch: &Event,
    pick: &Pick,
    nodes: &[u8],
    series: &[Series],
) -> Result<bool, Memory>
    ensures { IfOk result (λ b. IsTrue b ↔ IsJoined since.now fetch.now pick.now nodes.now series.now) }
{
    let ns = space_picked(pick);
    let joined = points_in(alloc, ns, series)?;
    let none: Vec<Point> = Vec::new(alloc);
    let can = can_join(alloc, since, fetch, ns, nodes, &none, &joined)?;
    Ok(can && is_ordered(series))
}

// Whether the event is a FetchStart for which different nodes count, whose answers since then the series join.
fn ends_fetch(
    alloc: Global,
    past: &[Event],
    since: &[Event],
    nodes: &[u8],
    series: &[Series],
    fetch: &Event,
) -> Result<bool, Memory>
    ensures { IfOk result (λ b. IsTrue b ↔ EndsFetch past.now since.now nodes.now series.now fetch.now) }
{
    match fetch {
        Event::FetchStart {
            version,
            shard,
            pick,
            ..
        } => {
            if !ascend::<u8, Distinct>(nodes) {
                return Ok(false);
            }
            if !are_counted(past, *version, *shard, nodes) {
                return Ok(false);
            }
            is_joined(alloc, since, fetch, pick, nodes, series)
        }
        _ => Ok(false),
    }
}

fn is_fetched(
    alloc: Global,
    past: &[Event],
    start: u64,
    nodes: &[u8],
    series: &[Series],
) -> Result<bool, Memory>
    ensures { IfOk result (λ b. IsTrue b ↔ IsFetched past.now start nodes.now series.now) }
{
    match past.get(start as usize) {
        Some(fetch) => {
            let since = &past[start as usize + 1..];
            ends_fetch(alloc, past, since, nodes, series, fetch)
        }
        None => Ok(false),
    }
}

fn step_was_asked(past: &[Event], event: &Event) -> bool
    ensures { IsTrue result ↔ StepWasAsked past.now event.now }
{
    match event {
        Event::Step {
            call: StepCall::Report,
            ..
        } => true,
        _ => was_asked(past, event),
    }
}

// Whether the step was asked for and is lawful.
fn is_asked_step(alloc: Global, past: &[Event], event: &Event) -> Result<bool, Memory>
    ensures { IfOk result (λ b. IsTrue b ↔ IsAskedStep past.now event.now) }
{
    match event {
        Event::Step {
            node,
            shard,
            call,
            reply,
        } => {
            if !step_was_asked(past, event) {
                return Ok(false);
            }
            let state = replica_of(alloc, *node, *shard, past)?;
            is_lawful_step(alloc, past, *node, *shard, &state, call, reply)
        }
        _ => Ok(false),
    }
}

fn is_lawful_event(alloc: Global, past: &[Event], event: &Event) -> Result<bool, Memory>
    ensures { IfOk result (λ b. IsTrue b ↔ (Lawful true past.now event.now × HasNoSums event.now)) }
{
    match event {
        Event::Ask { .. } => Ok(true),
        Event::Clock { rules } => Ok(was_asked(past, event) && is_next_clock(past, rules)),
        Event::Place { place, done } => {
            let next = is_next_place(alloc, past, place, done.as_slice())?;
            Ok(next && was_asked(past, event))
        }
        Event::Send { version, shard, .. } => Ok(has_shard(past, *version, *shard)),
        Event::Ack { send, nodes } => Ok(is_ack(past, *send, nodes.as_slice())),
        Event::FetchStart {
            version,
            shard,
            rules,
            ..
        } => Ok(has_shard(past, *version, *shard) && has_clock(past, rules)),
        Event::FetchDone {
            start,
            nodes,
            series,
        } => is_fetched(alloc, past, *start, nodes.as_slice(), series.as_slice()),
        Event::Step { .. } => is_asked_step(alloc, past, event),
    }
}

// Whether the event is lawful at this position, and no answer of digests.
fn is_lawful_at(
    alloc: Global,
    position: usize,
    past: &[Event],
    event: &Event,
) -> Result<bool, Memory>
    ensures { IfOk result (λ b. IsTrue b ↔ (LawfulAt true position past.now event.now × HasNoSums event.now)) }
{
    match position {
        0 => match event {
            Event::Place { place, done } => Ok(done.len() == 0 && is_lawful(place)),
            _ => Ok(false),
        },
        1 => Ok(matches!(event, Event::Clock { .. })),
        _ => is_lawful_event(alloc, past, event),
    }
}

// The core theorem, of every list and not just of those that memory can hold.
fn lists_keep()
    ensures { (list : List Event) → Legal true list → ListKeepsPoints list }
{}

/// Whether the list is legal, each event being lawful after those before it, and no call for digests in it was answered:
/// a digest can't be traced back to points. Refused only for want of memory.
///
/// Whatever is lost, late, repeated, fenced, moved or restarted in a legal list, a fetch that a majority answered has each
/// point that a majority took before it began, and nothing that wasn't written. That is so of every list, not just of those
/// that memory can hold.
pub fn any_legal(alloc: Global, events: &Seq<Event>) -> Result<bool, Memory>
    ensures legal { IfOk result (λ b. IsTrue b ↔ (Legal true events.now × All HasNoSums events.now)) }
    ensures keeps { (list : List Event) → Legal true list → ListKeepsPoints list }
{
    lists_keep();
    let events = events.as_slice();
    for (position, event) in events.iter().enumerate() {
        if !is_lawful_at(alloc, position, &events[..position], event)? {
            return Ok(false);
        }
    }
    Ok(true)
}
