ghost use Rattle.std.specs.Prelude.{◌≡◌, IfOk};
ghost use Rattle.line_parse.specs.Contents.{content, contents};
ghost use Rattle.m3_model.specs.Limits.{AreMatchers};
ghost use Rattle.line_fields.specs.Fields.{Gives};
ghost use Rattle.line_lists.specs.Matchers.{tag_name_of, sign_named, matcher_of_three, matcher_of_items, matcher_of, matchers_at};

use crate::lists::{Entry, list_at};
use json::Value;
use line_fields::{LineErr, is_tag_name, text_of};
use line_parse::as_array;
use m3_model::limits::MOST_MATCHERS;
use m3_model::{Matcher, Seq, Text};
use std::alloc::Global;

fn tag_name_of<'a>(value: &Value<'a>) -> Result<&'a str, LineErr>
    ensures { Gives (λ s. s.now) result (tag_name_of (content value.now)) }
{
    let name = text_of(value)?;
    if is_tag_name(name) {
        Ok(name)
    } else {
        Err(LineErr::Form)
    }
}

fn sign_named(sign: &str) -> Result<bool, LineErr>
    ensures { Gives (λ equal. equal) result (sign_named sign.now) }
{
    match sign {
        "=" => Ok(true),
        "!=" => Ok(false),
        _ => Err(LineErr::Form),
    }
}

fn matcher_of_three(
    alloc: Global,
    name: &Value<'_>,
    sign: &Value<'_>,
    value: &Value<'_>,
) -> Result<Matcher, LineErr>
    ensures { Gives (λ matcher. matcher) result (matcher_of_three (content name.now) (content sign.now) (content value.now)) }
{
    let name = tag_name_of(name)?;
    let equal = sign_named(text_of(sign)?)?;
    let value = text_of(value)?;
    Ok(Matcher {
        name: Text::from_str(alloc, name)?,
        equal,
        value: Text::from_str(alloc, value)?,
    })
}

#[tactic(auto, using(crate::proofs::Entries::not_three_items))]
fn matcher_of_items(alloc: Global, items: &[Value<'_>]) -> Result<Matcher, LineErr>
    ensures { Gives (λ matcher. matcher) result (matcher_of_items (contents items.now)) }
{
    if items.len() == 3 {
        matcher_of_three(alloc, &items[0], &items[1], &items[2])
    } else {
        Err(LineErr::Form)
    }
}

impl Entry for Matcher {
    ghost reading = { matcher_of };

    #[tactic(auto, unfolding(crate::specs::Matchers::matcher_of))]
    fn of_item(alloc: Global, item: &Value<'_>) -> Result<Matcher, LineErr> {
        match as_array(item) {
            None => Err(LineErr::Form),
            Some(items) => matcher_of_items(alloc, items),
        }
    }
}

/// The field as an array of matchers, each a tag's name, a sign and a value; `Form` where it is none such.
#[tactic(auto, using(crate::proofs::MatcherLimits::given_matchers), unfolding(crate::specs::Matchers::matchers_at))]
pub fn matchers_at(alloc: Global, value: &Value<'_>, key: &str) -> Result<Seq<Matcher>, LineErr>
    ensures gives { Gives (λ wanted. wanted) result (matchers_at key.now (content value.now)) }
    ensures within { IfOk result AreMatchers }
{
    list_at(alloc, value, key, 0, MOST_MATCHERS)
}
