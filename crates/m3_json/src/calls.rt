ghost use Rattle.std.specs.Prelude.{◌≡◌, IfOk, IfSome};
ghost use Rattle.line_parse.specs.Contents.{content};
ghost use Rattle.m3_model.specs.Limits.{MeetsLimits, IsMoment};
ghost use Rattle.line_fields.specs.Fields.{Gives};
ghost use Rattle.m3_json.specs.Requests.{NamesSeries};
ghost use Rattle.m3_json.specs.Rows.{write_level_named, read_level_named, write_level_at, read_level_at, version_at, write_keys, write_of, fetch_keys, fetch_of};

use json::Value;
use line_fields::{
    LineErr, Row, is_of_row, name_at, number_at, number_of, text_at, text_of, value_at,
};
use line_parse::{get, is_named};
use m3_model::limits::TIME_END;
use m3_model::{Act, ReadLevel, Text, WriteLevel};
use std::alloc::Global;

fn write_level_named(name: &str) -> Result<WriteLevel, LineErr>
    ensures { Gives (λ l. l) result (write_level_named name.now) }
{
    match name {
        "one" => Ok(WriteLevel::One),
        "majority" => Ok(WriteLevel::Majority),
        "all" => Ok(WriteLevel::All),
        _ => Err(LineErr::Form),
    }
}

fn read_level_named(name: &str) -> Result<ReadLevel, LineErr>
    ensures { Gives (λ l. l) result (read_level_named name.now) }
{
    match name {
        "one" => Ok(ReadLevel::One),
        "unstrict" => Ok(ReadLevel::Unstrict),
        "majority" => Ok(ReadLevel::Majority),
        "all" => Ok(ReadLevel::All),
        _ => Err(LineErr::Form),
    }
}

#[tactic(auto, unfolding(crate::specs::Rows::write_level_at))]
fn write_level_at(value: &Value<'_>) -> Result<WriteLevel, LineErr>
    ensures { Gives (λ l. l) result (write_level_at (content value.now)) }
{
    match get(value, "level") {
        None => Ok(WriteLevel::Majority),
        Some(level) => write_level_named(text_of(level)?),
    }
}

/// The level of the read that an object spells; a majority where it has none.
#[tactic(auto, unfolding(crate::specs::Rows::read_level_at))]
pub fn read_level_at(value: &Value<'_>) -> Result<ReadLevel, LineErr>
    ensures { Gives (λ l. l) result (read_level_at (content value.now)) }
{
    match get(value, "level") {
        None => Ok(ReadLevel::Majority),
        Some(level) => read_level_named(text_of(level)?),
    }
}

/// The version of the call that an object spells, where it has one.
#[tactic(auto, unfolding(crate::specs::Rows::version_at))]
pub fn version_at(value: &Value<'_>) -> Result<Option<u64>, LineErr>
    ensures gives { Gives (λ n. n) result (version_at (content value.now)) }
    ensures within { IfOk result (λ version. IfSome version IsMoment) }
{
    match get(value, "version") {
        None => Ok(None),
        Some(version) => Ok(Some(number_of(version, 0, TIME_END)?)),
    }
}

struct WriteRow;

impl Row for WriteRow {
    ghost keys = { write_keys };

    fn has(key: &str) -> bool {
        is_named("id", key)
            || is_named("level", key)
            || is_named("ns", key)
            || is_named("op", key)
            || is_named("t", key)
            || is_named("v", key)
            || is_named("version", key)
    }
}

/// The write that an object spells; any text is taken for its identifier.
#[tactic(auto, unfolding(crate::specs::Rows::write_of))]
pub fn write_of(alloc: Global, value: &Value<'_>) -> Result<Act, LineErr>
    ensures gives { Gives (λ a. a) result (write_of (content value.now)) }
    ensures within { IfOk result (λ a. NamesSeries a → MeetsLimits a) }
{
    if !is_of_row::<WriteRow>(value) {
        return Err(LineErr::Form);
    }
    let ns = name_at(value, "ns")?;
    let id = text_at(value, "id")?;
    let t = number_at(value, "t", 0, TIME_END)?;
    let v = value_at(value, "v")?;
    let level = write_level_at(value)?;
    let version = version_at(value)?;
    Ok(Act::Write {
        ns: Text::from_str(alloc, ns)?,
        id: Text::from_str(alloc, id)?,
        t,
        v,
        level,
        version,
    })
}

struct FetchRow;

impl Row for FetchRow {
    ghost keys = { fetch_keys };

    fn has(key: &str) -> bool {
        is_named("from", key)
            || is_named("id", key)
            || is_named("level", key)
            || is_named("ns", key)
            || is_named("op", key)
            || is_named("to", key)
            || is_named("version", key)
    }
}

/// The fetch that an object spells; any text is taken for its identifier.
#[tactic(auto, unfolding(crate::specs::Rows::fetch_of))]
pub fn fetch_of(alloc: Global, value: &Value<'_>) -> Result<Act, LineErr>
    ensures gives { Gives (λ a. a) result (fetch_of (content value.now)) }
    ensures within { IfOk result (λ a. NamesSeries a → MeetsLimits a) }
{
    if !is_of_row::<FetchRow>(value) {
        return Err(LineErr::Form);
    }
    let ns = name_at(value, "ns")?;
    let id = text_at(value, "id")?;
    let from = number_at(value, "from", 0, TIME_END)?;
    let to = number_at(value, "to", 0, TIME_END)?;
    let level = read_level_at(value)?;
    let version = version_at(value)?;
    Ok(Act::Fetch {
        ns: Text::from_str(alloc, ns)?,
        id: Text::from_str(alloc, id)?,
        from,
        to,
        level,
        version,
    })
}
