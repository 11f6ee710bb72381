ghost use Rattle.std.specs.Prelude.{◌≡◌, ◌==◌, ◌≤◌, ◌<◌, IfOk, IsTrue, map};
ghost use Rattle.std.specs.List.{list_all, list_any};
ghost use Rattle.std.specs.Cmp.Lexicographic.{pointwise};
ghost use Rattle.line_parse.specs.Contents.{content};
ghost use Rattle.m3_model.specs.Names.{is_name};
ghost use Rattle.line_fields.specs.Fields.{Gives, is_one_of, has_only, text_of, name_in, number_of, field, text_at, name_at, number_at, value_at};

use crate::fault::LineErr;
use crate::names::is_name;
use json::Value;
use line_parse::{as_i64, as_object, as_str, as_u64, get};

/// Whether the text is one of these.
pub fn is_one_of(texts: &[&str], text: &str) -> bool
    ensures { result ≡ list_any (λ one. pointwise ◌==◌ one.now text.now) texts.now }
{
    texts.iter().any(|one| *one == text)
}

fn are_allowed(members: &[(&str, Value<'_>)], allowed: &[&str]) -> bool
    ensures { result ≡ list_all (λ member. list_any (λ one. pointwise ◌==◌ one.now member.0.now) allowed.now) members.now }
{
    members.iter().all(|member| is_one_of(allowed, member.0))
}

/// Whether it is an object with no other fields than these.
#[tactic(auto, unfolding(crate::specs::Fields::has_only))]
pub fn has_only(value: &Value<'_>, allowed: &[&str]) -> bool
    ensures { result ≡ has_only (map (λ one. one.now) allowed.now) (content value.now) }
{
    match as_object(value) {
        None => false,
        Some(members) => are_allowed(members, allowed),
    }
}

/// The keys that the objects of a row of the grammar may have.
pub trait Row {
    ghost use Rattle.std.specs.Prelude.{ℕ, List};

    ghost keys: { List (List ℕ) };

    /// Whether it is one of them.
    fn has(key: &str) -> bool
        ensures { result ≡ is_one_of keys key.now };
}

fn are_of_row<R: Row>(members: &[(&str, Value<'_>)]) -> bool
    ensures { result ≡ list_all (λ member. is_one_of R.keys member.0.now) members.now }
{
    members.iter().all(|member| R::has(member.0))
}

/// Whether it is an object with no other fields than those of the row. It takes fewer comparisons than `has_only`, for
/// the rows of lines that come often.
#[tactic(auto, unfolding(crate::specs::Fields::has_only))]
pub fn is_of_row<R: Row>(value: &Value<'_>) -> bool
    ensures { result ≡ has_only R.keys (content value.now) }
{
    match as_object(value) {
        None => false,
        Some(members) => are_of_row::<R>(members),
    }
}

/// The text that a value is; `Form` where it is none.
pub fn text_of<'a>(value: &Value<'a>) -> Result<&'a str, LineErr>
    ensures { Gives (λ s. s.now) result (text_of (content value.now)) }
{
    as_str(value).ok_or(LineErr::Form)
}

/// The name that a value is; `Form` where it is none.
#[tactic(auto, unfolding(crate::specs::Fields::name_in))]
pub fn name_in<'a>(value: &Value<'a>) -> Result<&'a str, LineErr>
    ensures gives { Gives (λ s. s.now) result (name_in (content value.now)) }
    ensures within { IfOk result (λ s. IsTrue (is_name s.now)) }
{
    let name = text_of(value)?;
    if is_name(name) {
        Ok(name)
    } else {
        Err(LineErr::Form)
    }
}

/// The whole number that a value is, at least `from` and below `limit`; `Form` where it is none such.
#[tactic(auto, unfolding(crate::specs::Fields::number_of))]
pub fn number_of(value: &Value<'_>, from: u64, limit: u64) -> Result<u64, LineErr>
    ensures gives { Gives (λ n. n) result (number_of from limit (content value.now)) }
    ensures least { IfOk result (λ n. from ≤ n) }
    ensures below { IfOk result (λ n. n < limit) }
{
    match as_u64(value) {
        Some(n) if (from..limit).contains(&n) => Ok(n),
        _ => Err(LineErr::Form),
    }
}

/// The field of this key; `Form` where it is absent.
#[inline(always)]
pub fn field<'v, 'a>(value: &'v Value<'a>, key: &str) -> Result<&'v Value<'a>, LineErr>
    ensures { Gives (λ v. content v.now) result (field key.now (content value.now)) }
{
    get(value, key).ok_or(LineErr::Form)
}

/// The field as a text; `Form` where it is none.
#[tactic(auto, unfolding(crate::specs::Fields::text_at))]
#[inline(always)]
pub fn text_at<'a>(value: &Value<'a>, key: &str) -> Result<&'a str, LineErr>
    ensures { Gives (λ s. s.now) result (text_at key.now (content value.now)) }
{
    text_of(field(value, key)?)
}

/// The field as a name; `Form` where it is none.
#[tactic(auto, unfolding(crate::specs::Fields::name_at))]
#[inline(always)]
pub fn name_at<'a>(value: &Value<'a>, key: &str) -> Result<&'a str, LineErr>
    ensures gives { Gives (λ s. s.now) result (name_at key.now (content value.now)) }
    ensures within { IfOk result (λ s. IsTrue (is_name s.now)) }
{
    name_in(field(value, key)?)
}

/// The field as a whole number, at least `from` and below `limit`; `Form` where it is none such.
#[tactic(auto, unfolding(crate::specs::Fields::number_at))]
#[inline(always)]
pub fn number_at(value: &Value<'_>, key: &str, from: u64, limit: u64) -> Result<u64, LineErr>
    ensures gives { Gives (λ n. n) result (number_at key.now from limit (content value.now)) }
    ensures least { IfOk result (λ n. from ≤ n) }
    ensures below { IfOk result (λ n. n < limit) }
{
    number_of(field(value, key)?, from, limit)
}

/// The field as a whole number from -2^63 to 2^63 - 1; `Form` where it is none.
#[tactic(auto, unfolding(crate::specs::Fields::value_at))]
#[inline(always)]
pub fn value_at(value: &Value<'_>, key: &str) -> Result<i64, LineErr>
    ensures { Gives (λ z. z) result (value_at key.now (content value.now)) }
{
    as_i64(field(value, key)?).ok_or(LineErr::Form)
}
