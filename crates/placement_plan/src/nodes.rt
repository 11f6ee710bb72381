//! Nodes by name, and the marks on them.
ghost use Rattle.std.specs.Prelude.{◌≡◌, ◌≤◌, ◌<◌, length, IfSome, IfNone, IfOk, IfErr, true, false, ◌&&◌, nat_eq, Some, slice_get, slice_set};
ghost use Rattle.std.specs.Cmp.Lexicographic.{pointwise};
ghost use Rattle.std.specs.List.{list_any};
ghost use Rattle.placement_core.specs.m3_model.declared.placement.Instance.{Instance as Node};
ghost use Rattle.placement_core.specs.m3_model.declared.limits.TheConstants.{MOST_NODES};
ghost use Rattle.placement_core.specs.NodeNames.{name_of};
ghost use Rattle.placement_plan.specs.Nodes.{ListsNode, IsNodeNamed, IsNewName, CanHave, Joins};
ghost use Rattle.placement_plan.specs.Plans.{HasRoom};
ghost use Rattle.placement_plan.specs.Refusals.{IsPastLimit};

use crate::plan_err::PlaceErr;
use placement_core::of_m3_model::limits::MOST_NODES;
use placement_core::of_m3_model::{Duplicate, Instance, Memory, Seq, Text};
use std::alloc::Global;

/// The number of the listed node of this name.
pub fn listed_node(instances: &[Instance], name: &str) -> Option<u8>
    requires { length instances.now ≤ MOST_NODES }
    ensures found { IfSome result (ListsNode instances.now name.now) }
    ensures none { IfNone result (list_any (λ node. node.listed && pointwise nat_eq name.now node.name) instances.now ≡ false) }
{
    for (number, instance) in instances.iter().enumerate() {
        if instance.listed && name == instance.name.as_str() {
            return Some(number as u8);
        }
    }
    None
}

/// The number of the node of this name, listed or not.
pub fn named_node(instances: &[Instance], name: &str) -> Option<u8>
    requires { length instances.now ≤ MOST_NODES }
    ensures found { IfSome result (IsNodeNamed instances.now name.now) }
    ensures none { IfNone result (IsNewName instances.now name.now) }
{
    for (number, instance) in instances.iter().enumerate() {
        if instance.name.equals(name) {
            return Some(number as u8);
        }
    }
    None
}

/// The number that the node of the name has or gets. Refused `Limit` where the name is new and 16 names are known.
pub fn number_for(instances: &[Instance], name: &str) -> Result<u8, PlaceErr>
    requires { length instances.now ≤ MOST_NODES }
    ensures ok { IfOk result (λ node. CanHave instances.now name.now node × HasRoom instances.now name.now) }
    ensures err { IfErr result (IsPastLimit instances.now name.now) }
{
    match named_node(instances, name) {
        Some(node) => Ok(node),
        None if instances.len() < MOST_NODES => Ok(instances.len() as u8),
        None => Err(PlaceErr::Limit {
            limit: MOST_NODES as u64,
        }),
    }
}

/// The nodes where the one of the name and number is listed in the group, and isn't drained.
pub fn joined(
    alloc: Global,
    instances: &Seq<Instance>,
    node: u8,
    name: &str,
    group: &str,
) -> Result<Seq<Instance>, Memory>
    requires { CanHave instances.now name.now node }
    ensures { IfOk result (λ next. Joins instances.now name.now group.now next node) }
{
    let mut next = instances.copy(alloc)?.into_vec();
    let joining = Instance {
        name: Text::from_str(alloc, name)?,
        group: Text::from_str(alloc, group)?,
        listed: true,
        drained: false,
    };
    if (node as usize) < next.len() {
        next[node as usize] = joining;
    } else {
        next.push(joining)?;
    }
    Ok(Seq::from_vec(next))
}

/// The name of the node of this number, empty where no instance has it.
pub fn name_of(instances: &[Instance], node: u8) -> &str
    ensures { result.now ≡ name_of instances.now node }
{
    match instances.get(node as usize) {
        None => "",
        Some(instance) => instance.name.as_str(),
    }
}

/// The nodes where this one isn't listed any more.
pub fn unlisted(alloc: Global, instances: &Seq<Instance>, node: u8) -> Result<Seq<Instance>, Memory>
    requires { node < length instances.now }
    ensures { IfOk result (λ next. (i : Node) → slice_get instances.now node ≡ Some i → next ≡ slice_set instances.now node (record i { listed = false })) }
{
    let mut next = instances.copy(alloc)?.into_vec();
    next[node as usize].listed = false;
    Ok(Seq::from_vec(next))
}

/// The nodes where this one is drained.
pub fn drained(alloc: Global, instances: &Seq<Instance>, node: u8) -> Result<Seq<Instance>, Memory>
    requires { node < length instances.now }
    ensures { IfOk result (λ next. (i : Node) → slice_get instances.now node ≡ Some i → next ≡ slice_set instances.now node (record i { drained = true })) }
{
    let mut next = instances.copy(alloc)?.into_vec();
    next[node as usize].drained = true;
    Ok(Seq::from_vec(next))
}
