ghost use Rattle.std.specs.Prelude.{◌≡◌, IfOk};
ghost use Rattle.line_parse.specs.Contents.{content};
ghost use Rattle.m3_model.specs.Limits.{MeetsLimits};
ghost use Rattle.line_fields.specs.Fields.{Gives};
ghost use Rattle.m3_json.specs.Placements.{add_of, drain_of, cancel_of, remove_of, replace_of};

use crate::nodes::sole_node;
use json::Value;
use line_fields::{LineErr, has_only, name_at};
use m3_model::{Act, Text};
use std::alloc::Global;

/// The addition of a node that an object spells.
#[tactic(auto, unfolding(crate::specs::Placements::add_of))]
pub fn add_of(alloc: Global, value: &Value<'_>) -> Result<Act, LineErr>
    ensures gives { Gives (λ a. a) result (add_of (content value.now)) }
    ensures within { IfOk result MeetsLimits }
{
    if !has_only(value, &["group", "node", "op"]) {
        return Err(LineErr::Form);
    }
    let node = name_at(value, "node")?;
    let group = name_at(value, "group")?;
    Ok(Act::Add {
        node: Text::from_str(alloc, node)?,
        group: Text::from_str(alloc, group)?,
    })
}

/// The drain of a node that an object spells.
#[tactic(auto, unfolding(crate::specs::Placements::drain_of))]
pub fn drain_of(alloc: Global, value: &Value<'_>) -> Result<Act, LineErr>
    ensures gives { Gives (λ a. a) result (drain_of (content value.now)) }
    ensures within { IfOk result MeetsLimits }
{
    let node = sole_node(value)?;
    Ok(Act::Drain {
        node: Text::from_str(alloc, node)?,
    })
}

/// The end of the moves to a node that an object spells.
#[tactic(auto, unfolding(crate::specs::Placements::cancel_of))]
pub fn cancel_of(alloc: Global, value: &Value<'_>) -> Result<Act, LineErr>
    ensures gives { Gives (λ a. a) result (cancel_of (content value.now)) }
    ensures within { IfOk result MeetsLimits }
{
    let node = sole_node(value)?;
    Ok(Act::Cancel {
        node: Text::from_str(alloc, node)?,
    })
}

/// The removal of a node that an object spells.
#[tactic(auto, unfolding(crate::specs::Placements::remove_of))]
pub fn remove_of(alloc: Global, value: &Value<'_>) -> Result<Act, LineErr>
    ensures gives { Gives (λ a. a) result (remove_of (content value.now)) }
    ensures within { IfOk result MeetsLimits }
{
    let node = sole_node(value)?;
    Ok(Act::Remove {
        node: Text::from_str(alloc, node)?,
    })
}

/// The replacement of a node that an object spells.
#[tactic(auto, unfolding(crate::specs::Placements::replace_of))]
pub fn replace_of(alloc: Global, value: &Value<'_>) -> Result<Act, LineErr>
    ensures gives { Gives (λ a. a) result (replace_of (content value.now)) }
    ensures within { IfOk result MeetsLimits }
{
    if !has_only(value, &["by", "group", "node", "op"]) {
        return Err(LineErr::Form);
    }
    let node = name_at(value, "node")?;
    let by = name_at(value, "by")?;
    let group = name_at(value, "group")?;
    Ok(Act::Replace {
        node: Text::from_str(alloc, node)?,
        by: Text::from_str(alloc, by)?,
        group: Text::from_str(alloc, group)?,
    })
}
