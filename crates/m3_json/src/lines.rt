ghost use Rattle.std.specs.Prelude.{◌≡◌, ◌↔◌, Ok, Err, IfOk, IfErr, IsTrue};
ghost use Rattle.json.specs.declared.error.Error.TheVariants.{OutOfMemory};
ghost use Rattle.line_parse.specs.Contents.{content};
ghost use Rattle.m3_model.specs.Limits.{MeetsLimits, KeepsLimits};
ghost use Rattle.served_acts.specs.NotYet.{IsServed};
ghost use Rattle.line_fields.specs.Fields.{Gives};
ghost use Rattle.m3_json.specs.Requests.{act_of, NamesSeries, ObjectMeans, LineMeans};

use crate::calls::{fetch_of, write_of};
use crate::fates::fates_of;
use crate::init::init_of;
use crate::matches::match_of;
use crate::moment::now_of;
use crate::namespace::namespace_of;
use crate::nodes::{bootstrap_of, restart_of, stop_of};
use crate::not_yet::{is_put_off, refusal_of};
use crate::placements::{add_of, cancel_of, drain_of, remove_of, replace_of};
use crate::upkeep::without_fields;
use json::{Error, Scratch, Value};
use line_fields::{LineErr, text_at};
use line_parse::parse::parse;
use m3_model::{Act, Request};
use series_id::valid;
use std::alloc::Global;

#[tactic(auto, using(crate::proofs::Meanings::fails_as), unfolding(crate::specs::Requests::act_of))]
fn act_of(alloc: Global, op: &str, value: &Value<'_>) -> Result<Act, LineErr>
    ensures gives { Gives (λ a. a) result (act_of op.now (content value.now)) }
    ensures within { IfOk result (λ a. NamesSeries a → MeetsLimits a) }
{
    match op {
        "init" => init_of(alloc, value),
        "namespace" => namespace_of(alloc, value),
        "now" => now_of(value),
        "write" => write_of(alloc, value),
        "fetch" => fetch_of(alloc, value),
        "match" => match_of(alloc, value),
        "fates" => fates_of(alloc, value),
        "deliver" => without_fields(value, Act::Deliver),
        "stop" => stop_of(alloc, value),
        "restart" => restart_of(alloc, value),
        "bootstrap" => bootstrap_of(alloc, value),
        "add" => add_of(alloc, value),
        "drain" => drain_of(alloc, value),
        "cancel" => cancel_of(alloc, value),
        "remove" => remove_of(alloc, value),
        "replace" => replace_of(alloc, value),
        "tick" => without_fields(value, Act::Tick),
        "flush" => without_fields(value, Act::Flush),
        "snapshot" => without_fields(value, Act::Snapshot),
        "repair" => without_fields(value, Act::Repair),
        "status" => without_fields(value, Act::Status),
        _ => Err(refusal_of(op)),
    }
}

fn names_series(act: &Act) -> bool
    ensures { IsTrue result ↔ NamesSeries act.now }
{
    match act {
        Act::Write { id, .. } | Act::Fetch { id, .. } => valid(id.as_str()),
        _ => true,
    }
}

fn request_of(alloc: Global, value: &Value<'_>) -> Result<Request, LineErr>
    ensures ok { IfOk result (λ r. ObjectMeans (content value.now) (Ok r)) }
    ensures within { IfOk result KeepsLimits }
    ensures served { IfOk result IsServed }
    ensures err { IfErr result (λ e. ObjectMeans (content value.now) (Err e)) }
{
    let op = text_at(value, "op")?;
    let act = act_of(alloc, op, value)?;
    if !names_series(&act) {
        return Err(LineErr::Form);
    }
    if is_put_off(&act) {
        return Err(LineErr::Later);
    }
    Ok(Request::One(act))
}

fn is_memory(error: Error) -> bool
    ensures { IsTrue result ↔ (error ≡ OutOfMemory) }
{
    match error {
        Error::OutOfMemory => true,
        Error::Invalid | Error::TooLong | Error::DuplicateKey => false,
    }
}

/// The request that a line spells: a JSON object with `op` and the fields of that op's row. Of a key that comes twice
/// the last value counts, and a field that is `null` isn't absent. The identifier of a series is in the grammar of
/// identifiers, tags included.
///
/// `Form` says that the line isn't in the grammar, `Later` that it is and no part of the program serves it yet, and
/// `Memory` that memory ran out first. An error leaves nothing behind.
///
/// The scratch is memory alone: it grows to the longest line, and what it holds of one line says nothing of the next.
pub fn read_line(alloc: Global, scratch: &mut Scratch, line: &[u8]) -> Result<Request, LineErr>
    ensures ok { IfOk result (λ r. LineMeans line.now (Ok r)) }
    ensures within { IfOk result KeepsLimits }
    ensures served { IfOk result IsServed }
    ensures err { IfErr result (λ e. LineMeans line.now (Err e)) }
{
    match parse(alloc, line, scratch) {
        Ok(value) => request_of(alloc, &value),
        Err(error) if is_memory(error) => Err(LineErr::Memory),
        Err(_) => Err(LineErr::Form),
    }
}
