ghost use Rattle.std.specs.Prelude.{◌≡◌, IfOk};
ghost use Rattle.line_parse.specs.Contents.{content};
ghost use Rattle.m3_model.specs.Limits.{MeetsLimits};
ghost use Rattle.line_fields.specs.Fields.{Gives};
ghost use Rattle.m3_json.specs.Fates.{fates_of};

use json::Value;
use line_fields::{LineErr, has_only};
use line_lists::fates_at;
use m3_model::Act;
use std::alloc::Global;

/// The fates that an object spells.
#[tactic(auto, unfolding(crate::specs::Fates::fates_of))]
pub fn fates_of(alloc: Global, value: &Value<'_>) -> Result<Act, LineErr>
    ensures gives { Gives (λ a. a) result (fates_of (content value.now)) }
    ensures within { IfOk result MeetsLimits }
{
    if !has_only(value, &["list", "op"]) {
        return Err(LineErr::Form);
    }
    let list = fates_at(alloc, value, "list")?;
    Ok(Act::Fates { list })
}
