ghost use Rattle.std.specs.Prelude.{◌≡◌, ◌++◌, IfOk, OnOk, OnErr, Some, string_bytes};
ghost use Rattle.std.specs.Option.{option_copied};
ghost use Rattle.serde_json.specs.Read.{read};
ghost use Rattle.serde_json.specs.View.{view};
ghost use Rattle.serde_json.specs.Written.{compact_text};
ghost use Rattle.reply_items.specs.Names.{instances_of};
ghost use Rattle.reply_values.specs.Json.{list_of};
ghost use Rattle.m3_replies.specs.Replies.{answer_data, answers_data, reply_data, reply_text};

use crate::shortfall::{Shortfall, quorum_value};
use crate::success::{
    acks_value, available_value, found_value, outcomes_value, placed_value, repaired_value,
    status_value, swept_value,
};
use m3_model::{Answer, Instance, Memory, Placement, Reply, Seq};
use reply_items::instances_of;
use reply_texts::{acks_into, found_into};
use reply_values::{
    clock_value, corrupt_value, group_value, limit_value, plain_value, put_bool, put_value,
    replica_value, state_value, unknown_value,
};
use serde_json::{Map, Value, json};
use std::alloc::{AllocError, Global};

fn answer_value(alloc: Global, instances: &[Instance], answer: &Answer) -> Result<Value, AllocError>
    ensures { IfOk result (λ value. view value ≡ answer_data instances.now answer.now) }
{
    match answer {
        Answer::Done => json!(in alloc; {"ok": true}),
        Answer::Placed { placement, version } => {
            placed_value(alloc, instances, placement, *version)
        }
        Answer::Acks { acks } => acks_value(alloc, instances, acks.as_slice()),
        Answer::Found { series, short } => {
            found_value(alloc, instances, series.as_slice(), *short)
        }
        Answer::Outcomes { outcomes } => outcomes_value(alloc, instances, outcomes.as_slice()),
        Answer::Available {
            available,
            placement,
            version,
        } => { available_value(alloc, instances, available.as_slice(), placement, *version) }
        Answer::Swept { done, failed } => {
            swept_value(alloc, instances, done.as_slice(), failed.as_slice())
        }
        Answer::Repaired { shards } => repaired_value(alloc, instances, shards.as_slice()),
        Answer::Status {
            now,
            replicas,
            version,
        } => { status_value(alloc, instances, *now, replicas.as_slice(), *version) }
        Answer::Form => plain_value(alloc, 1, "form"),
        Answer::Long => plain_value(alloc, 2, "long"),
        Answer::Order => plain_value(alloc, 3, "order"),
        Answer::Unknown { name } => unknown_value(alloc, name.as_str()),
        Answer::Limit { limit } => limit_value(alloc, *limit),
        Answer::Clock { now } => clock_value(alloc, *now),
        Answer::Consistency {
            got,
            needed,
            reasons,
            shard,
        } => {
            let shortfall = Shortfall {
                got: *got,
                needed: *needed,
                reasons: reasons.as_slice(),
                shard: *shard,
            };
            quorum_value(alloc, instances, 7, "consistency", shortfall)
        }
        Answer::Busy { node, shard } => replica_value(alloc, 8, "busy", node.as_str(), *shard),
        Answer::Group { shard } => group_value(alloc, *shard),
        Answer::Peers {
            got,
            needed,
            reasons,
            shard,
        } => {
            let shortfall = Shortfall {
                got: *got,
                needed: *needed,
                reasons: reasons.as_slice(),
                shard: *shard,
            };
            quorum_value(alloc, instances, 10, "peers", shortfall)
        }
        Answer::Disk { node, shard } => replica_value(alloc, 11, "disk", node.as_str(), *shard),
        Answer::State { node } => state_value(alloc, node.as_str()),
        Answer::Memory => plain_value(alloc, 13, "memory"),
        Answer::Full => plain_value(alloc, 14, "full"),
        Answer::Corrupt {
            node,
            shard,
            damage,
        } => { corrupt_value(alloc, node.as_str(), *shard, damage) }
        Answer::Later => plain_value(alloc, 16, "later"),
    }
}

fn answers_value(
    alloc: Global,
    instances: &[Instance],
    answers: &[Answer],
) -> Result<Value, AllocError>
    ensures { IfOk result (λ value. view value ≡ list_of (answer_data instances.now) answers.now) }
{
    let mut values = Vec::new(alloc);
    for answer in answers {
        values.push(answer_value(alloc, instances, answer)?)?;
    }
    Ok(Value::Array(values))
}

fn lists_value(
    alloc: Global,
    instances: &[Instance],
    lists: &[Seq<Answer>],
) -> Result<Value, AllocError>
    ensures { IfOk result (λ value. view value ≡ answers_data instances.now lists.now) }
{
    let mut values = Vec::new(alloc);
    for list in lists {
        values.push(answers_value(alloc, instances, list.as_slice())?)?;
    }
    Ok(Value::Array(values))
}

fn reply_value(alloc: Global, instances: &[Instance], reply: &Reply) -> Result<Value, AllocError>
    ensures { IfOk result (λ value. view value ≡ reply_data instances.now reply.now) }
{
    match reply {
        Reply::One(answer) => answer_value(alloc, instances, answer),
        Reply::Par { clients, workers } => {
            let mut map = Map::new(alloc);
            let clients = lists_value(alloc, instances, clients.as_slice())?;
            put_value(&mut map, alloc, "clients", clients)?;
            put_bool(&mut map, alloc, "ok", true)?;
            let workers = lists_value(alloc, instances, workers.as_slice())?;
            put_value(&mut map, alloc, "workers", workers)?;
            Ok(Value::Object(map))
        }
    }
}

fn built_text(alloc: Global, instances: &[Instance], reply: &Reply) -> Result<String, AllocError>
    ensures text { IfOk result (λ text. string_bytes text ≡ compact_text (reply_data instances.now reply.now)) }
    ensures reads_back { IfOk result (λ text. read (string_bytes text) ≡ Some (reply_data instances.now reply.now)) }
{
    let value = reply_value(alloc, instances, reply)?;
    value.to_string(alloc)
}

fn built_into(
    alloc: Global,
    text: &mut Vec<u8>,
    instances: &[Instance],
    reply: &Reply,
) -> Result<(), AllocError>
    ensures text { OnOk result (text.new.items ≡ text.old.items ++ compact_text (reply_data instances.now reply.now)) }
    ensures nothing { OnErr result (text.new.items ≡ text.old.items) }
    ensures reads_back { OnOk result (read (compact_text (reply_data instances.now reply.now)) ≡ Some (reply_data instances.now reply.now)) }
{
    let built = built_text(alloc, instances, reply)?;
    text.extend_from_slice(built.as_str().as_bytes())
}

// What most replies are is written at once; of another one a value is built first.
fn text_into(
    alloc: Global,
    text: &mut Vec<u8>,
    instances: &[Instance],
    reply: &Reply,
) -> Result<(), AllocError>
    ensures text { OnOk result (text.new.items ≡ text.old.items ++ compact_text (reply_data instances.now reply.now)) }
    ensures nothing { OnErr result (text.new.items ≡ text.old.items) }
    ensures reads_back { OnOk result (read (compact_text (reply_data instances.now reply.now)) ≡ Some (reply_data instances.now reply.now)) }
{
    match reply {
        Reply::One(Answer::Acks { acks }) => acks_into(alloc, text, instances, acks.as_slice()),
        Reply::One(Answer::Found { series, short }) => {
            found_into(alloc, text, instances, series.as_slice(), *short)
        }
        _ => built_into(alloc, text, instances, reply),
    }
}

/// Appends the line of a reply: compact JSON with its keys in ascending order, and no newline.
///
/// Nodes that the reply has as numbers get their names from the placement's instances, and empty
/// names where there is none. Only want of memory is an error, and then nothing is appended.
pub fn print_reply(
    alloc: Global,
    text: &mut Vec<u8>,
    reply: &Reply,
    place: Option<&Placement>,
) -> Result<(), Memory>
    ensures text { OnOk result (text.new.items ≡ text.old.items ++ reply_text (option_copied place.entry) reply.now) }
    ensures nothing { OnErr result (text.new.items ≡ text.old.items) }
    ensures reads_back { OnOk result (read (reply_text (option_copied place.entry) reply.now) ≡ Some (reply_data (instances_of (option_copied place.entry)) reply.now)) }
{
    text_into(alloc, text, instances_of(place), reply)?;
    Ok(())
}
