//! Lines that make a placement.
ghost use Rattle.std.specs.Prelude.{◌≡◌, ◌⊎◌, [], Some, None, true, IfOk, IfErr};
ghost use Rattle.m3_model.specs.Limits.{IsInit, MeetsLimits};
ghost use Rattle.m3_model.specs.declared.act.Act.TheVariants as act;
ghost use Rattle.m3_model.specs.declared.answer.Answer.TheVariants as answer;
ghost use Rattle.m3_model.specs.declared.limits.TheConstants.{MOST_VERSIONS};
ghost use Rattle.placement_core.specs.Lawful.{IsLawful};
ghost use Rattle.placement_core.specs.NodeNames.{name_of};
ghost use Rattle.placement_core.specs.Steps.{IsStep};
ghost use Rattle.placement_plan.specs.First.{IsFirstPlacement};
ghost use Rattle.placement_acts.specs.Acts.{LeadsNowhere, LeadsTo, Plans, Refuses, is_step_act, old_name};

use first_placement::initial::initial;
use m3_model::limits::MOST_VERSIONS;
use m3_model::{Act, Answer, Instance, Placement, Seq, Text};
use placement_moves::{add, drain, replace};
use placement_plan::{PlaceErr, cancel, name_of, remove};
use std::alloc::Global;

// The placement that the planning rules lead to.
fn planned(alloc: Global, place: &Placement, act: &Act) -> Result<Placement, PlaceErr>
    requires lawful { IsLawful place.now }
    requires step { is_step_act act.now ≡ true }
    requires limits { MeetsLimits act.now }
    ensures plan { IfOk result (Plans (Some place.now) act.now) }
    ensures lawful { IfOk result IsLawful }
    ensures step { IfOk result (λ next. IsStep place.now next []) }
    ensures refused { IfErr result (Refuses (Some place.now) act.now) }
{
    match act {
        Act::Add { node, group } => add(alloc, place, node.as_str(), group.as_str()),
        Act::Drain { node } => drain(alloc, place, node.as_str()),
        Act::Cancel { node } => cancel(alloc, place, node.as_str()),
        Act::Remove { node } => remove(alloc, place, node.as_str()),
        Act::Replace { node, by, group } => {
            replace(alloc, place, node.as_str(), by.as_str(), group.as_str())
        }
        _ => unreachable!(),
    }
}

// The name of the node that is to be there.
fn old_name(act: &Act) -> &str
    ensures { result.now ≡ old_name act.now }
{
    match act {
        Act::Drain { node }
        | Act::Cancel { node }
        | Act::Remove { node }
        | Act::Replace { node, .. } => node.as_str(),
        _ => "",
    }
}

// That no listed node has the name.
fn unknown(alloc: Global, name: &str) -> Answer
    ensures { (result ≡ answer.Memory) ⊎ (result ≡ answer.Unknown name.now) }
{
    match Text::from_str(alloc, name) {
        Ok(name) => Answer::Unknown { name },
        Err(_) => Answer::Memory,
    }
}

// That the shard is busy at the node of this number.
fn busy(alloc: Global, instances: &[Instance], shard: u32, node: u8) -> Answer
    ensures { (result ≡ answer.Memory) ⊎ (result ≡ answer.Busy (name_of instances.now node) shard) }
{
    match Text::from_str(alloc, name_of(instances, node)) {
        Ok(node) => Answer::Busy { node, shard },
        Err(_) => Answer::Memory,
    }
}

// That as many versions are kept as may be.
fn past_versions() -> Answer
    ensures { result ≡ answer.Limit MOST_VERSIONS }
{
    Answer::Limit {
        limit: MOST_VERSIONS as u64,
    }
}

// The answer to a line for which the planning rules lead to no placement. The limit of versions comes after what names refuse
// it for, and before what is in the way of the plan.
fn refused(alloc: Global, place: &Placement, kept: usize, act: &Act, why: PlaceErr) -> Answer
    requires step { is_step_act act.now ≡ true }
    requires refused { Refuses (Some place.now) act.now why }
    ensures { LeadsNowhere (Some place.now) kept act.now result }
{
    match why {
        PlaceErr::Exists => Answer::Order,
        PlaceErr::Unknown => unknown(alloc, old_name(act)),
        PlaceErr::Limit { limit } => Answer::Limit { limit },
        PlaceErr::Memory => Answer::Memory,
        PlaceErr::Busy { shard, node } => {
            if kept < MOST_VERSIONS {
                busy(alloc, place.instances.as_slice(), shard, node)
            } else {
                past_versions()
            }
        }
        PlaceErr::Group { shard } => {
            if kept < MOST_VERSIONS {
                Answer::Group { shard }
            } else {
                past_versions()
            }
        }
    }
}

/// What the line of an `add`, `drain`, `cancel`, `remove` or `replace` leads to where the placement stands and so many versions
/// of placements are kept: exactly the next placement of the planning rules, or the refusal. Refused, the first of these that
/// holds: `Order` where a node to be listed is listed already; `Unknown` with the name where no listed node has that of a node
/// to be there; `Limit` of 16 where a name is new and so many are known, and of 1,024 where so many versions are kept; `Busy` with
/// the least shard in the way, and the name of the node that joins it, or, of a removal, of the node that has it; `Group` with
/// the least shard for which no isolation group is left. `Memory` says that there is no memory, or no further version. Which nodes
/// are stopped doesn't matter.
///
/// See M3DB's page "Placement".
pub fn next_placement(
    alloc: Global,
    place: &Placement,
    kept: usize,
    act: &Act,
) -> Result<Placement, Answer>
    requires lawful { IsLawful place.now }
    requires step { is_step_act act.now ≡ true }
    requires limits { MeetsLimits act.now }
    ensures next { IfOk result (LeadsTo (Some place.now) kept act.now) }
    ensures lawful { IfOk result IsLawful }
    ensures step { IfOk result (λ next. IsStep place.now next []) }
    ensures refused { IfErr result (LeadsNowhere (Some place.now) kept act.now) }
{
    match planned(alloc, place, act) {
        Ok(next) if kept < MOST_VERSIONS => Ok(next),
        Ok(_) => Err(past_versions()),
        Err(why) => Err(refused(alloc, place, kept, act, why)),
    }
}

/// What the line of an `init` leads to where no placement stands: exactly the first placement of the planning rules, or the
/// refusal. Refused `Group` of shard 0 where the nodes are in fewer than `rf` groups. `Memory` says that there is no memory.
///
/// See M3DB's pages "Placement" and "Placement Configuration".
pub fn initial_placement(
    alloc: Global,
    rf: u32,
    shards: u32,
    seed: u32,
    nodes: Seq<(Text, Text)>,
) -> Result<Placement, Answer>
    requires { IsInit rf shards seed nodes }
    ensures next { IfOk result (LeadsTo None 0 (act.Init rf shards seed nodes)) }
    ensures lawful { IfOk result IsLawful }
    ensures first { IfOk result (IsFirstPlacement rf shards nodes) }
    ensures refused { IfErr result (LeadsNowhere None 0 (act.Init rf shards seed nodes)) }
{
    match initial(alloc, rf, shards, nodes) {
        Ok(place) => Ok(place),
        Err(PlaceErr::Group { shard }) => Err(Answer::Group { shard }),
        Err(_) => Err(Answer::Memory),
    }
}
