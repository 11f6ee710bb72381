//! Looking into a parsed value, as into the data that it stands for.
ghost use Rattle.std.specs.Prelude.{◌≡◌, option_map, option_and_then};
ghost use Rattle.json.specs.Find.{get_member};
ghost use Rattle.json.specs.Value.{value_view, members_view};
ghost use Rattle.serde_json.specs.Data.{no_members};
ghost use Rattle.serde_json.specs.Find.{get as get_data, as_str, as_number, as_u64, as_i64, as_array, as_object};
ghost use Rattle.line_parse.specs.Contents.{content, contents, members_data};

use crate::keys::is_named;
use crate::numbers::number_of;
use json::Value;

#[inline(always)]
fn last_member<'v, 'a>(members: &'v Vec<(&'a str, Value<'a>)>, key: &str) -> Option<&'v Value<'a>>
    ensures { option_map (λ v. value_view v.now) result ≡ get_member key.now (members_view members.now.items) }
{
    let mut left = members.len();
    while left > 0 {
        left -= 1;
        let member = &members[left];
        if is_named(member.0, key) {
            return Some(&member.1);
        }
    }
    None
}

/// The member of this key, where it is an object; of several the last one.
#[inline(always)]
pub fn get<'v, 'a>(value: &'v Value<'a>, key: &str) -> Option<&'v Value<'a>>
    ensures { option_map (λ v. content v.now) result ≡ get_data key.now (content value.now) }
{
    match value {
        Value::Object(members) => last_member(members, key),
        _ => None,
    }
}

/// The text, where it is one.
pub fn as_str<'a>(value: &Value<'a>) -> Option<&'a str>
    ensures { option_map (λ s. s.now) result ≡ as_str (content value.now) }
{
    value.as_str()
}

/// The whole number from 0 to 2^64 - 1, where it is one.
pub fn as_u64(value: &Value<'_>) -> Option<u64>
    ensures { result ≡ option_and_then as_u64 (as_number (content value.now)) }
{
    number_of(value.as_number()?)?.as_u64()
}

/// The whole number from -2^63 to 2^63 - 1, where it is one.
pub fn as_i64(value: &Value<'_>) -> Option<i64>
    ensures { result ≡ option_and_then as_i64 (as_number (content value.now)) }
{
    number_of(value.as_number()?)?.as_i64()
}

/// The items, where it is an array.
pub fn as_array<'v, 'a>(value: &'v Value<'a>) -> Option<&'v [Value<'a>]>
    ensures { option_map (λ items. contents items.now) result ≡ as_array (content value.now) }
{
    match value {
        Value::Array(items) => Some(items.as_slice()),
        _ => None,
    }
}

/// The members in the order of the line, where it is an object.
pub fn as_object<'v, 'a>(value: &'v Value<'a>) -> Option<&'v [(&'a str, Value<'a>)]>
    ensures { option_map (λ members. members_data (members_view members.now) no_members) result ≡ as_object (content value.now) }
{
    match value {
        Value::Object(members) => Some(members.as_slice()),
        _ => None,
    }
}
