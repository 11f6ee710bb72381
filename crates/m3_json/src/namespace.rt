ghost use Rattle.std.specs.Prelude.{◌≡◌, IfOk};
ghost use Rattle.line_parse.specs.Contents.{content};
ghost use Rattle.m3_model.specs.Limits.{MeetsLimits};
ghost use Rattle.line_fields.specs.Fields.{Gives};
ghost use Rattle.m3_json.specs.Rows.{namespace_of};

use json::Value;
use line_fields::{LineErr, has_only, name_at, number_at};
use m3_model::limits::DURATION_END;
use m3_model::{Act, Text};
use std::alloc::Global;

/// The namespace that an object spells.
#[tactic(auto, unfolding(crate::specs::Rows::namespace_of))]
pub fn namespace_of(alloc: Global, value: &Value<'_>) -> Result<Act, LineErr>
    ensures gives { Gives (λ a. a) result (namespace_of (content value.now)) }
    ensures within { IfOk result MeetsLimits }
{
    if !has_only(
        value,
        &["block", "future", "name", "op", "past", "retention"],
    ) {
        return Err(LineErr::Form);
    }
    let name = name_at(value, "name")?;
    let block = number_at(value, "block", 1, DURATION_END)?;
    let past = number_at(value, "past", 0, block)?;
    let future = number_at(value, "future", 0, block)?;
    let retention = number_at(value, "retention", block, DURATION_END)?;
    Ok(Act::Namespace {
        name: Text::from_str(alloc, name)?,
        block,
        past,
        future,
        retention,
    })
}
