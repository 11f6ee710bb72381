ghost use Rattle.std.specs.Prelude.{◌≡◌, IfOk};
ghost use Rattle.line_parse.specs.Contents.{content};
ghost use Rattle.line_fields.specs.Fields.{Gives};
ghost use Rattle.m3_json.specs.Upkeep.{without_fields};

use json::Value;
use line_fields::{LineErr, has_only};
use m3_model::Act;

/// This act, where the object has no field but its op; `Form` where it has one.
#[tactic(auto, unfolding(crate::specs::Upkeep::without_fields))]
pub fn without_fields(value: &Value<'_>, one: Act) -> Result<Act, LineErr>
    ensures gives { Gives (λ a. a) result (without_fields one (content value.now)) }
    ensures same { IfOk result (λ a. a ≡ one) }
{
    if has_only(value, &["op"]) {
        Ok(one)
    } else {
        Err(LineErr::Form)
    }
}
