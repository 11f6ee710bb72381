ghost use Rattle.std.specs.Prelude.{◌≡◌, IfOk};
ghost use Rattle.line_parse.specs.Contents.{content};
ghost use Rattle.m3_model.specs.Limits.{MeetsLimits};
ghost use Rattle.line_fields.specs.Fields.{Gives};
ghost use Rattle.m3_json.specs.Rows.{init_of};

use json::Value;
use line_fields::{LineErr, has_only, number_at};
use line_lists::nodes_at;
use m3_model::Act;
use m3_model::limits::{MOST_REPLICAS, MOST_SHARDS, SEED_END};
use std::alloc::Global;

/// The init that an object spells.
#[tactic(auto, unfolding(crate::specs::Rows::init_of))]
pub fn init_of(alloc: Global, value: &Value<'_>) -> Result<Act, LineErr>
    ensures gives { Gives (λ a. a) result (init_of (content value.now)) }
    ensures within { IfOk result MeetsLimits }
{
    if !has_only(value, &["nodes", "op", "rf", "seed", "shards"]) {
        return Err(LineErr::Form);
    }
    let rf = number_at(value, "rf", 1, MOST_REPLICAS as u64 + 1)?;
    let shards = number_at(value, "shards", 1, MOST_SHARDS as u64 + 1)?;
    let seed = number_at(value, "seed", 0, SEED_END)?;
    let nodes = nodes_at(alloc, value, "nodes")?;
    Ok(Act::Init {
        rf: rf as u32,
        shards: shards as u32,
        seed: seed as u32,
        nodes,
    })
}
