ghost use Rattle.std.specs.Prelude.{◌≡◌, IfOk};
ghost use Rattle.line_parse.specs.Contents.{content};
ghost use Rattle.m3_model.specs.Limits.{MeetsLimits};
ghost use Rattle.line_fields.specs.Fields.{Gives};
ghost use Rattle.m3_json.specs.Rows.{match_of};

use crate::calls::{read_level_at, version_at};
use json::Value;
use line_fields::{LineErr, has_only, name_at, number_at};
use line_lists::matchers_at;
use m3_model::limits::TIME_END;
use m3_model::{Act, Text};
use std::alloc::Global;

/// The match that an object spells.
#[tactic(auto, unfolding(crate::specs::Rows::match_of, line_fields::specs::Fields::has_only))]
pub fn match_of(alloc: Global, value: &Value<'_>) -> Result<Act, LineErr>
    ensures gives { Gives (λ a. a) result (match_of (content value.now)) }
    ensures within { IfOk result MeetsLimits }
{
    if !has_only(
        value,
        &["from", "level", "ns", "op", "to", "version", "where"],
    ) {
        return Err(LineErr::Form);
    }
    let ns = name_at(value, "ns")?;
    let wanted = matchers_at(alloc, value, "where")?;
    let from = number_at(value, "from", 0, TIME_END)?;
    let to = number_at(value, "to", 0, TIME_END)?;
    let level = read_level_at(value)?;
    let version = version_at(value)?;
    Ok(Act::Match {
        ns: Text::from_str(alloc, ns)?,
        wanted,
        from,
        to,
        level,
        version,
    })
}
