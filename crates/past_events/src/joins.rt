//! Whether a joining replica has merged what the former ones had.
ghost use Rattle.std.specs.Prelude.{◌≡◌, ◌↔◌, ◌<◌, IsTrue, IfOk, MatchOption, length, ℕ};
ghost use Rattle.std.specs.List.{Any};
ghost use Rattle.placement_core.specs.Shards.{is_steady};
ghost use Rattle.cluster_core.specs.Joins.{BeganWith, FencedAt, GaveAsked, MergedPage, HasCover, HasFenced, HasStreamed, HasJoined};
ghost use Rattle.past_events.specs.Joining.{IsNext, IsNoNext, IsNewPeer};

use cluster_core::{Event, StepCall, StepReply};
use equality::Same;
use m3_model::{Assignment, Duplicate, Key, Memory, Page, ShardState};
use std::alloc::Global;

fn began_with(event: &Event, node: u8, shard: u32, tenure: u64) -> bool
    ensures { IsTrue result ↔ BeganWith node shard tenure event.now }
{
    match event {
        Event::Step {
            node: n,
            shard: s,
            call: StepCall::Begin { tenure: t },
            reply: StepReply::Began { .. },
        } => *n == node && *s == shard && *t == tenure,
        _ => false,
    }
}

fn fenced_at(event: &Event, node: u8, shard: u32, version: u64) -> bool
    ensures { IsTrue result ↔ FencedAt node shard version event.now }
{
    match event {
        Event::Step {
            node: n,
            shard: s,
            call: StepCall::Fence { version: v },
            reply: StepReply::Done,
        } => *n == node && *s == shard && version <= *v,
        _ => false,
    }
}

fn merged_page(event: &Event, node: u8, shard: u32, page: &Page) -> bool
    ensures { IsTrue result ↔ MergedPage node shard page.now event.now }
{
    match event {
        Event::Step {
            node: n,
            shard: s,
            call: StepCall::Merge { page: merged },
            reply: StepReply::Count { .. },
        } => *n == node && *s == shard && merged.is_same(page),
        _ => false,
    }
}

fn has_merged(since: &[Event], node: u8, shard: u32, page: &Page) -> bool
    ensures { IsTrue result ↔ Any (MergedPage node shard page.now) since.now }
{
    since.iter().any(|e| merged_page(e, node, shard, page))
}

// The page that the replica gave, with the key with which it was asked for.
fn page_given(event: &Event, node: u8, shard: u32) -> Option<(&Option<Key>, &Page)>
    ensures { MatchOption result ((p : _) → ¬ GaveAsked node shard p event.now) (λ p. GaveAsked node shard (p.0.now, p.1.now) event.now) }
{
    match event {
        Event::Step {
            node: n,
            shard: s,
            call: StepCall::Page { after },
            reply: StepReply::Paged { page },
        } if *n == node && *s == shard => Some((after, page)),
        _ => None,
    }
}

fn has_key(keys: &[Option<Key>], key: &Option<Key>) -> bool
    ensures { IsTrue result ↔ Any (λ k. k ≡ key.now) keys.now }
{
    keys.iter().any(|k| k.is_same(key))
}

// The page that the peer gave in this event, asked for with one of the keys, if the node merged it.
fn next_page<'a>(
    keys: &[Option<Key>],
    since: &[Event],
    event: &'a Event,
    shard: u32,
    peer: u8,
    node: u8,
) -> Option<&'a Page>
    ensures { MatchOption result (IsNoNext shard peer node since.now keys.now event.now) (λ page. IsNext shard peer node since.now keys.now event.now page.now) }
{
    let Some((from, page)) = page_given(event, peer, shard) else {
        return None;
    };
    if !has_key(keys, from) {
        return None;
    }
    if !has_merged(since, node, shard, page) {
        return None;
    }
    Some(page)
}

// Whether the later events have pages of the peer that cover it, all of which the node merged since it began: from none,
// or from a key from which a page goes on, each page that was asked for so goes on.
fn has_cover(
    alloc: Global,
    shard: u32,
    peer: u8,
    node: u8,
    since: &[Event],
    later: &[Event],
) -> Result<bool, Memory>
    ensures { IfOk result (λ b. IsTrue b ↔ HasCover shard peer node since.now later.now) }
{
    let mut keys: Vec<Option<Key>> = Vec::new(alloc);
    keys.push(None)?;
    for event in later {
        if let Some(page) = next_page(&keys, since, event, shard, peer, node) {
            match &page.next {
                None => return Ok(true),
                Some(next) => keys.push(Some(next.copy(alloc)?))?,
            }
        }
    }
    Ok(false)
}

fn has_fenced(
    alloc: Global,
    shard: u32,
    peer: u8,
    node: u8,
    tenure: u64,
    since: &[Event],
) -> Result<bool, Memory>
    ensures { IfOk result (λ b. IsTrue b ↔ HasFenced shard peer node tenure since.now) }
{
    for (position, event) in since.iter().enumerate() {
        if fenced_at(event, peer, shard, tenure)
            && has_cover(alloc, shard, peer, node, since, &since[position + 1..])?
        {
            return Ok(true);
        }
    }
    Ok(false)
}

fn has_streamed(
    alloc: Global,
    shard: u32,
    peer: u8,
    node: u8,
    tenure: u64,
    past: &[Event],
) -> Result<bool, Memory>
    ensures { IfOk result (λ b. IsTrue b ↔ HasStreamed shard node tenure peer past.now) }
{
    for (position, event) in past.iter().enumerate() {
        if began_with(event, node, shard, tenure)
            && has_fenced(alloc, shard, peer, node, tenure, &past[position + 1..])?
        {
            return Ok(true);
        }
    }
    Ok(false)
}

// Whether no move of the shard goes on.
fn is_steady(shard: &[Assignment]) -> bool
    ensures { result ≡ is_steady shard.now }
{
    shard.iter().all(|a| a.state == ShardState::Available)
}

// Whether the assignment's node is one more former replica from which the node has merged a cover.
fn is_new_peer(
    alloc: Global,
    past: &[Event],
    former: &Assignment,
    peers: &[u8],
    shard: u32,
    node: u8,
    tenure: u64,
) -> Result<bool, Memory>
    ensures { IfOk result (λ b. IsTrue b ↔ IsNewPeer past.now shard node tenure former.now peers.now) }
{
    let streamed = has_streamed(alloc, shard, former.node, node, tenure, past)?;
    let known = peers.iter().any(|p| *p == former.node);
    Ok(former.state != ShardState::Initializing && !known && streamed)
}

/// Whether the node, begun with this tenure, has merged covers of a majority of the former replicas of the shard, which
/// has these assignments.
pub fn has_joined(
    alloc: Global,
    past: &[Event],
    rf: u32,
    assignments: &[Assignment],
    shard: u32,
    node: u8,
    tenure: u64,
) -> Result<bool, Memory>
    ensures { IfOk result (λ b. IsTrue b ↔ HasJoined past.now rf assignments.now shard node tenure) }
{
    let mut peers: Vec<u8> = Vec::new(alloc);
    for former in assignments {
        if is_new_peer(alloc, past, former, &peers, shard, node, tenure)? {
            peers.push(former.node)?;
        }
    }
    let count = peers.len();
    let many = count > rf as usize / 2;
    Ok(many && !is_steady(assignments))
}
