//! Steps of one shard.
ghost use Rattle.std.specs.Prelude.{◌≡◌, ◌↔◌, ℕ, IsTrue, map, All, Any};
ghost use Rattle.m3_model.specs.declared.placement.ShardState.TheVariants.{Initializing, Leaving};
ghost use Rattle.placement_core.specs.Lawful.{IsServing};
ghost use Rattle.placement_core.specs.Steps.{turned, settled, Begins, IsCancelOf, IsEndOf, IsShardStep};

use m3_model::{Assignment, ShardState};

fn is_same(a: &Assignment, b: &Assignment) -> bool
    ensures { IsTrue result ↔ (a.now ≡ b.now) }
{
    a.node == b.node && a.tenure == b.tenure && a.state == b.state && a.source == b.source
}

fn turned(node: u8, state: ShardState, assignment: Assignment) -> Assignment
    ensures { result ≡ turned node state assignment }
{
    if assignment.node == node {
        Assignment {
            state,
            source: None,
            ..assignment
        }
    } else {
        assignment
    }
}

fn are_same(old: &[Assignment], next: &[Assignment]) -> bool
    ensures { IsTrue result ↔ (next.now ≡ old.now) }
{
    let mut rest = next;
    for was in old {
        match rest {
            [is, later @ ..] if is_same(is, was) => rest = later,
            _ => return false,
        }
    }
    rest.is_empty()
}

fn are_turned(node: u8, state: ShardState, old: &[Assignment], next: &[Assignment]) -> bool
    ensures { IsTrue result ↔ (next.now ≡ map (turned node state) old.now) }
{
    let mut rest = next;
    for was in old {
        match rest {
            [is, later @ ..] if is_same(is, &turned(node, state, *was)) => rest = later,
            _ => return false,
        }
    }
    rest.is_empty()
}

fn are_settled(gone: u8, stays: u8, old: &[Assignment], next: &[Assignment]) -> bool
    ensures { IsTrue result ↔ (next.now ≡ settled gone stays old.now) }
{
    let mut rest = next;
    for was in old {
        if was.node != gone {
            match rest {
                [is, later @ ..] if is_same(is, &turned(stays, ShardState::Available, *was)) => {
                    rest = later
                }
                _ => return false,
            }
        }
    }
    rest.is_empty()
}

fn is_steady(shard: &[Assignment]) -> bool
    ensures { IsTrue result ↔ All IsServing shard.now }
{
    shard
        .iter()
        .all(|a| a.state == ShardState::Available && a.source.is_none())
}

fn has_node(shard: &[Assignment], node: u8) -> bool
    ensures { IsTrue result ↔ Any (λ a. a.node ≡ node) shard.now }
{
    shard.iter().any(|a| a.node == node)
}

fn begins_with(
    version: u64,
    old: &[Assignment],
    others: &[Assignment],
    joining: &Assignment,
    from: u8,
) -> bool
    ensures { IsTrue result ↔ ((joining.now.state ≡ Initializing) × (joining.now.tenure ≡ version) × All IsServing old.now
        × Any (λ a. a.node ≡ from) old.now × ¬ Any (λ a. a.node ≡ joining.now.node) old.now
        × (others.now ≡ map (turned from Leaving) old.now)) }
{
    joining.state == ShardState::Initializing
        && joining.tenure == version
        && is_steady(old)
        && has_node(old, from)
        && !has_node(old, joining.node)
        && are_turned(from, ShardState::Leaving, old, others)
}

fn begins(version: u64, old: &[Assignment], next: &[Assignment]) -> bool
    ensures { IsTrue result ↔ Begins version old.now next.now }
{
    let [others @ .., joining] = next else {
        return false;
    };
    match joining.source {
        Some(from) => begins_with(version, old, others, joining, from),
        None => false,
    }
}

fn cancels_of(joining: &Assignment, old: &[Assignment], next: &[Assignment]) -> bool
    ensures { IsTrue result ↔ IsCancelOf old.now next.now joining.now }
{
    match joining.source {
        Some(from) if joining.state == ShardState::Initializing => {
            are_settled(joining.node, from, old, next)
        }
        _ => false,
    }
}

fn cancels(old: &[Assignment], next: &[Assignment]) -> bool
    ensures { IsTrue result ↔ Any (IsCancelOf old.now next.now) old.now }
{
    old.iter().any(|joining| cancels_of(joining, old, next))
}

fn ends_of(joining: &Assignment, old: &[Assignment], next: &[Assignment], to: u8) -> bool
    ensures { IsTrue result ↔ IsEndOf old.now next.now to joining.now }
{
    match joining.source {
        Some(from) if joining.node == to && joining.state == ShardState::Initializing => {
            are_settled(from, to, old, next)
        }
        _ => false,
    }
}

fn ends(old: &[Assignment], next: &[Assignment], to: u8) -> bool
    ensures { IsTrue result ↔ Any (IsEndOf old.now next.now to) old.now }
{
    old.iter().any(|joining| ends_of(joining, old, next, to))
}

/// Whether the shard's new assignments follow from the old ones at the new version, where its move to the node of
/// `done` ends, or else none ends. Takes no memory.
pub fn is_shard_step(
    version: u64,
    old: &[Assignment],
    next: &[Assignment],
    done: Option<u8>,
) -> bool
    ensures { IsTrue result ↔ IsShardStep version old.now next.now done }
{
    match done {
        Some(to) => ends(old, next, to),
        None => are_same(old, next) || begins(version, old, next) || cancels(old, next),
    }
}
