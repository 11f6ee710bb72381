//! Whether a placement is lawful: one that a cluster may have.
ghost use Rattle.std.specs.Prelude.{◌≡◌, ◌≢◌, ◌↔◌, IsTrue};
ghost use Rattle.std.specs.List.{All, list_all};
ghost use Rattle.m3_model.specs.Ascends.{Ascends};
ghost use Rattle.m3_model.specs.Names.{is_name_byte, is_name};
ghost use Rattle.placement_core.specs.Lawful.{IsApart, IsServing, IsMoving, IsShard, IsSpread, IsWithinLimits, IsLawful};
ghost use Rattle.placement_core.specs.LawfulParts.{HasBothNames, IsSmall, AreNamed, IsListed, MovesTo, Moves, HasReplicas, HasNodes, ApartBefore, ApartAfter, IsGood};

use crate::ascending::{Order, ascend};
use m3_model::limits::{MOST_NAME_BYTES, MOST_NODES, MOST_REPLICAS, MOST_SHARDS, NUMBER_END};
use m3_model::{Assignment, Instance, Placement, ShardState};

fn is_name_byte(byte: u8) -> bool
    ensures { result ≡ is_name_byte byte }
{
    byte.is_ascii_alphanumeric() || byte == b'_' || byte == b'-'
}

fn are_name_bytes(bytes: &[u8]) -> bool
    ensures { result ≡ list_all is_name_byte bytes.now }
{
    bytes.iter().all(|&byte| is_name_byte(byte))
}

fn is_name(text: &str) -> bool
    ensures { result ≡ is_name text.now }
{
    (1..=MOST_NAME_BYTES).contains(&text.len()) && are_name_bytes(text.as_bytes())
}

fn is_named(instance: &Instance) -> bool
    ensures { IsTrue result ↔ HasBothNames instance.now }
{
    is_name(instance.name.as_str()) && is_name(instance.group.as_str())
}

/// The nodes of a placement have different names.
struct ByName;

impl Order<Instance> for ByName {
    ghost before = { λ one other. one.name ≢ other.name };

    fn is_before(first: &Instance, later: &Instance) -> bool {
        !first.name.equals(later.name.as_str())
    }
}

/// A shard has different nodes.
struct ByNode;

impl Order<Assignment> for ByNode {
    ghost before = { λ one other. one.node ≢ other.node };

    fn is_before(first: &Assignment, later: &Assignment) -> bool {
        first.node != later.node
    }
}

fn are_named(instances: &[Instance]) -> bool
    ensures { IsTrue result ↔ AreNamed instances.now }
{
    instances.iter().all(|instance| is_named(instance)) && ascend::<Instance, ByName>(instances)
}

fn is_small(place: &Placement) -> bool
    ensures { IsTrue result ↔ IsSmall place.now }
{
    1 <= place.rf
        && place.rf <= MOST_REPLICAS
        && 1 <= place.shards.len()
        && place.shards.len() <= MOST_SHARDS as usize
        && place.instances.len() <= MOST_NODES
        && place.version < NUMBER_END
}

fn is_within_limits(place: &Placement) -> bool
    ensures { IsTrue result ↔ IsWithinLimits place.now }
{
    is_small(place) && are_named(place.instances.as_slice())
}

fn is_serving(a: &Assignment) -> bool
    ensures { IsTrue result ↔ IsServing a.now }
{
    a.state == ShardState::Available && a.source.is_none()
}

fn moves_to(shard: &[Assignment], leaving: &Assignment, joining: &Assignment) -> bool
    ensures { IsTrue result ↔ MovesTo shard.now leaving.now joining.now }
{
    joining.state == ShardState::Initializing
        && joining.source == Some(leaving.node)
        && shard.iter().all(|a| a.node == leaving.node || a.node == joining.node || is_serving(a))
}

fn moves(shard: &[Assignment], leaving: &Assignment) -> bool
    ensures { IsTrue result ↔ Moves shard.now leaving.now }
{
    leaving.state == ShardState::Leaving
        && leaving.source.is_none()
        && shard
            .iter()
            .any(|joining| moves_to(shard, leaving, joining))
}

fn is_moving(shard: &[Assignment]) -> bool
    ensures { IsTrue result ↔ IsMoving shard.now }
{
    shard.iter().any(|leaving| moves(shard, leaving))
}

fn is_steady(shard: &[Assignment]) -> bool
    ensures { IsTrue result ↔ All IsServing shard.now }
{
    shard.iter().all(is_serving)
}

fn has_replicas(rf: u32, shard: &[Assignment]) -> bool
    ensures { IsTrue result ↔ HasReplicas rf shard.now }
{
    let replicas = rf as usize;
    let many = shard.len();
    if many == replicas {
        is_steady(shard)
    } else {
        many > 0 && many - 1 == replicas && is_moving(shard)
    }
}

fn has_nodes(version: u64, shard: &[Assignment]) -> bool
    ensures { IsTrue result ↔ HasNodes version shard.now }
{
    ascend::<Assignment, ByNode>(shard) && shard.iter().all(|a| a.tenure <= version)
}

fn is_shard(rf: u32, version: u64, shard: &[Assignment]) -> bool
    ensures { IsTrue result ↔ IsShard rf version shard.now }
{
    has_replicas(rf, shard) && has_nodes(version, shard)
}

fn is_apart(instances: &[Instance], one: &Assignment, other: &Assignment) -> bool
    ensures { IsTrue result ↔ IsApart instances.now one.now other.now }
{
    match instances.get(one.node as usize) {
        Some(a) => match instances.get(other.node as usize) {
            Some(b) => !a.name.equals(b.name.as_str()) && !a.group.equals(b.group.as_str()),
            None => false,
        },
        None => false,
    }
}

#[tactic(auto, unfolding(crate::specs::LawfulParts::IsListed))]
fn is_listed(instances: &[Instance], a: &Assignment) -> bool
    ensures { IsTrue result ↔ IsListed instances.now a.now }
{
    match instances.get(a.node as usize) {
        Some(instance) => instance.listed,
        None => false,
    }
}

#[tactic(auto, unfolding(crate::specs::LawfulParts::ApartBefore))]
fn is_apart_before(instances: &[Instance], one: &Assignment, other: &Assignment) -> bool
    ensures { IsTrue result ↔ ApartBefore instances.now one.now other.now }
{
    if one.state == ShardState::Initializing {
        return true;
    }
    if other.state == ShardState::Initializing {
        return true;
    }
    is_apart(instances, one, other)
}

#[tactic(auto, unfolding(crate::specs::LawfulParts::ApartAfter))]
fn is_apart_after(instances: &[Instance], one: &Assignment, other: &Assignment) -> bool
    ensures { IsTrue result ↔ ApartAfter instances.now one.now other.now }
{
    if one.state == ShardState::Leaving {
        return true;
    }
    if other.state == ShardState::Leaving {
        return true;
    }
    is_apart(instances, one, other)
}

// Whether the replica is apart from the later ones, before and after a move.
fn is_spread_from(instances: &[Instance], a: &Assignment, later: &[Assignment]) -> bool
    ensures { IsTrue result ↔ All (λ b. ApartBefore instances.now a.now b × ApartAfter instances.now a.now b) later.now }
{
    later.iter().all(|b| is_apart_before(instances, a, b) && is_apart_after(instances, a, b))
}

fn are_spread(instances: &[Instance], shard: &[Assignment]) -> bool
    ensures { IsTrue result ↔ Ascends (λ a b. ApartBefore instances.now a b × ApartAfter instances.now a b) shard.now }
{
    for (position, a) in shard.iter().enumerate() {
        if !is_spread_from(instances, a, &shard[position + 1..]) {
            return false;
        }
    }
    true
}

fn are_listed(instances: &[Instance], shard: &[Assignment]) -> bool
    ensures { IsTrue result ↔ All (IsListed instances.now) shard.now }
{
    shard.iter().all(|a| is_listed(instances, a))
}

fn is_spread(instances: &[Instance], shard: &[Assignment]) -> bool
    ensures { IsTrue result ↔ IsSpread instances.now shard.now }
{
    are_listed(instances, shard) && are_spread(instances, shard)
}

fn is_good(place: &Placement, shard: &[Assignment]) -> bool
    ensures { IsTrue result ↔ IsGood place.now shard.now }
{
    is_shard(place.rf, place.version, shard) && is_spread(place.instances.as_slice(), shard)
}

fn are_good(place: &Placement) -> bool
    ensures { IsTrue result ↔ All (IsGood place.now) place.now.shards }
{
    place
        .shards
        .as_slice()
        .iter()
        .all(|shard| is_good(place, shard.as_slice()))
}

/// Whether it is a placement that a cluster may have: 1 to 5 replicas of 1 to 64 shards on at most 16 nodes, each node of
/// the shard listed, and each shard steady or with one move, in different isolation groups before and after it. Each
/// planning call asks for such a placement. Takes no memory.
///
/// See M3DB's page "Placement".
pub fn is_lawful(place: &Placement) -> bool
    ensures { IsTrue result ↔ IsLawful place.now }
{
    is_within_limits(place) && are_good(place)
}
