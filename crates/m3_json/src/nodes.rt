ghost use Rattle.std.specs.Prelude.{◌≡◌, ◌<◌, IfOk, IfSome, IsTrue};
ghost use Rattle.line_parse.specs.Contents.{content};
ghost use Rattle.m3_model.specs.Limits.{MeetsLimits, IsMoment};
ghost use Rattle.m3_model.specs.Names.{is_name};
ghost use Rattle.m3_model.specs.declared.limits.TheConstants.{MOST_SHARDS};
ghost use Rattle.line_fields.specs.Fields.{Gives};
ghost use Rattle.m3_json.specs.Rows.{sole_node, stop_of, pick_at, restart_of, shard_asked, bootstrap_of};

use json::Value;
use line_fields::{LineErr, has_only, name_at, number_of};
use line_parse::get;
use m3_model::limits::{MOST_SHARDS, TIME_END};
use m3_model::{Act, Text};
use std::alloc::Global;

/// The field `node` of an object that has no other field but its op; `Form` where it is no name, or there are others.
#[tactic(auto, unfolding(crate::specs::Rows::sole_node))]
pub fn sole_node<'a>(value: &Value<'a>) -> Result<&'a str, LineErr>
    ensures gives { Gives (λ s. s.now) result (sole_node (content value.now)) }
    ensures within { IfOk result (λ s. IsTrue (is_name s.now)) }
{
    if has_only(value, &["node", "op"]) {
        name_at(value, "node")
    } else {
        Err(LineErr::Form)
    }
}

/// The stop of a node that an object spells.
#[tactic(auto, unfolding(crate::specs::Rows::stop_of))]
pub fn stop_of(alloc: Global, value: &Value<'_>) -> Result<Act, LineErr>
    ensures gives { Gives (λ a. a) result (stop_of (content value.now)) }
    ensures within { IfOk result MeetsLimits }
{
    let node = sole_node(value)?;
    Ok(Act::Stop {
        node: Text::from_str(alloc, node)?,
    })
}

#[tactic(auto, unfolding(crate::specs::Rows::pick_at))]
fn pick_at(value: &Value<'_>) -> Result<u64, LineErr>
    ensures gives { Gives (λ n. n) result (pick_at (content value.now)) }
    ensures within { IfOk result IsMoment }
{
    match get(value, "pick") {
        None => Ok(0),
        Some(pick) => number_of(pick, 0, TIME_END),
    }
}

/// The restart of a node that an object spells.
#[tactic(auto, unfolding(crate::specs::Rows::restart_of))]
pub fn restart_of(alloc: Global, value: &Value<'_>) -> Result<Act, LineErr>
    ensures gives { Gives (λ a. a) result (restart_of (content value.now)) }
    ensures within { IfOk result MeetsLimits }
{
    if !has_only(value, &["node", "op", "pick"]) {
        return Err(LineErr::Form);
    }
    let node = name_at(value, "node")?;
    let pick = pick_at(value)?;
    Ok(Act::Restart {
        node: Text::from_str(alloc, node)?,
        pick,
    })
}

#[tactic(auto, unfolding(crate::specs::Rows::shard_asked))]
fn shard_asked(value: &Value<'_>) -> Result<Option<u32>, LineErr>
    ensures gives { Gives (λ n. n) result (shard_asked (content value.now)) }
    ensures within { IfOk result (λ shard. IfSome shard (λ s. s < MOST_SHARDS)) }
{
    match get(value, "shard") {
        None => Ok(None),
        Some(shard) => Ok(Some(number_of(shard, 0, MOST_SHARDS as u64)? as u32)),
    }
}

/// The bootstrap of a node that an object spells.
#[tactic(auto, unfolding(crate::specs::Rows::bootstrap_of))]
pub fn bootstrap_of(alloc: Global, value: &Value<'_>) -> Result<Act, LineErr>
    ensures gives { Gives (λ a. a) result (bootstrap_of (content value.now)) }
    ensures within { IfOk result MeetsLimits }
{
    if !has_only(value, &["node", "op", "shard"]) {
        return Err(LineErr::Form);
    }
    let node = name_at(value, "node")?;
    let shard = shard_asked(value)?;
    Ok(Act::Bootstrap {
        node: Text::from_str(alloc, node)?,
        shard,
    })
}
