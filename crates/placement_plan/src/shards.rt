//! What a node has of a shard, and what a move makes of it.
ghost use Rattle.std.specs.Prelude.{◌≡◌, ◌↔◌, ◌≤◌, length, IsTrue, IfOk, IfSome, IfNone, Some, Any, map, ℕ};
ghost use Rattle.placement_core.specs.m3_model.declared.placement.ShardState.TheVariants.{Initializing};
ghost use Rattle.placement_core.specs.m3_model.Members.{IsIn};
ghost use Rattle.placement_core.specs.m3_model.declared.limits.TheConstants.{MOST_SHARDS};
ghost use Rattle.placement_core.specs.Shards.{Shard};
ghost use Rattle.placement_core.specs.Lawful.{IsJoiningFrom};
ghost use Rattle.placement_core.specs.Steps.{turned, without, settled};
ghost use Rattle.placement_plan.specs.Nodes.{Has, IsFirstWhere};
ghost use Rattle.placement_plan.specs.Choices.{moved};
ghost use Rattle.placement_plan.specs.Plans.{JoinsFrom, IsJoining};

use placement_core::of_m3_model::{Assignment, Memory, Seq, ShardState};
use std::alloc::Global;

fn any_of(shard: &[Assignment], node: u8) -> bool
    ensures { IsTrue result ↔ Any (λ a. a.node ≡ node) shard.now }
{
    shard.iter().any(|a| a.node == node)
}

/// Whether the node has an assignment of the shard.
pub fn has_node(shard: &[Assignment], node: u8) -> bool
    ensures { IsTrue result ↔ Has node shard.now }
{
    any_of(shard, node)
}

/// The least shard that the node has.
pub fn first_shard_of(shards: &[Seq<Assignment>], node: u8) -> Option<u32>
    requires { length shards.now ≤ MOST_SHARDS }
    ensures found { IfSome result (IsFirstWhere (Has node) shards.now) }
    ensures none { IfNone result ((shard : Shard) → IsIn shards.now shard → ¬ Has node shard) }
{
    for (number, shard) in shards.iter().enumerate() {
        if has_node(shard.as_slice(), node) {
            return Some(number as u32);
        }
    }
    None
}

/// Whether the node is joining the shard in the place of this source.
pub fn joins_from(shard: &[Assignment], node: u8, from: u8) -> bool
    ensures { IsTrue result ↔ Any (λ a. (a.node ≡ node) × (a.state ≡ Initializing) × (a.source ≡ Some from)) shard.now }
{
    shard.iter().any(|a| a.node == node
        && a.state == ShardState::Initializing
        && a.source == Some(from))
}

fn source_in(assignment: &Assignment, node: u8) -> Option<u8>
    ensures found { IfSome result (λ from. (assignment.now.node ≡ node) × IsJoiningFrom from assignment.now) }
    ensures none { IfNone result ((from : ℕ) → assignment.now.node ≡ node → ¬ IsJoiningFrom from assignment.now) }
{
    if assignment.node == node && assignment.state == ShardState::Initializing {
        assignment.source
    } else {
        None
    }
}

/// The source of the node's move, where the node is joining the shard.
pub fn source_of(shard: &[Assignment], node: u8) -> Option<u8>
    ensures found { IfSome result (λ from. JoinsFrom node from shard.now) }
    ensures none { IfNone result (¬ IsJoining node shard.now) }
{
    for a in shard {
        match source_in(a, node) {
            Some(from) => return Some(from),
            None => {}
        }
    }
    None
}

fn turned(node: u8, state: ShardState, assignment: Assignment) -> Assignment
    ensures { result ≡ turned node state assignment }
{
    if assignment.node == node {
        Assignment {
            state,
            source: None,
            ..assignment
        }
    } else {
        assignment
    }
}

fn turned_all(
    alloc: Global,
    shard: &[Assignment],
    node: u8,
    state: ShardState,
) -> Result<Vec<Assignment>, Memory>
    ensures { IfOk result (λ next. next.items ≡ map (turned node state) shard.now) }
{
    let mut next = Vec::new(alloc);
    for a in shard {
        next.push(turned(node, state, *a))?;
    }
    Ok(next)
}

fn without(alloc: Global, shard: &[Assignment], node: u8) -> Result<Vec<Assignment>, Memory>
    ensures { IfOk result (λ next. next.items ≡ without node shard.now) }
{
    let next = shard
        .iter()
        .filter(|a| a.node != node)
        .copied()
        .collect(alloc)?;
    Ok(next)
}

/// The shard where a move is over: one node goes, and another one is Available.
pub fn settled(
    alloc: Global,
    shard: &[Assignment],
    gone: u8,
    stays: u8,
) -> Result<Seq<Assignment>, Memory>
    ensures { IfOk result (λ next. next ≡ settled gone stays shard.now) }
{
    let others = without(alloc, shard, gone)?;
    let next = turned_all(alloc, &others, stays, ShardState::Available)?;
    Ok(Seq::from_vec(next))
}

/// The shard where a move begins at this version.
pub fn moved(
    alloc: Global,
    shard: &[Assignment],
    version: u64,
    from: u8,
    to: u8,
) -> Result<Seq<Assignment>, Memory>
    ensures { IfOk result (λ next. next ≡ moved version from to shard.now) }
{
    let mut next = turned_all(alloc, shard, from, ShardState::Leaving)?;
    next.push(Assignment {
        node: to,
        tenure: version,
        state: ShardState::Initializing,
        source: Some(from),
    })?;
    Ok(Seq::from_vec(next))
}
