ghost use Rattle.std.specs.Prelude.{◌≡◌, IfOk};
ghost use Rattle.line_parse.specs.Contents.{content};
ghost use Rattle.m3_model.specs.Limits.{MeetsLimits};
ghost use Rattle.line_fields.specs.Fields.{Gives};
ghost use Rattle.m3_json.specs.Rows.{now_of};

use json::Value;
use line_fields::{LineErr, has_only, number_at};
use m3_model::Act;
use m3_model::limits::TIME_END;

/// The moment that an object spells.
#[tactic(auto, unfolding(crate::specs::Rows::now_of))]
pub fn now_of(value: &Value<'_>) -> Result<Act, LineErr>
    ensures gives { Gives (λ a. a) result (now_of (content value.now)) }
    ensures within { IfOk result MeetsLimits }
{
    if !has_only(value, &["now", "op"]) {
        return Err(LineErr::Form);
    }
    let now = number_at(value, "now", 0, TIME_END)?;
    Ok(Act::Now { now })
}
