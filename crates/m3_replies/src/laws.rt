//! Facts about the texts of replies. The functions do nothing.
ghost use Rattle.std.specs.Prelude.{◌≡◌, map, Some};
ghost use Rattle.serde_json.specs.Read.{read};
ghost use Rattle.reply_values.specs.Json.{KeysAscend};
ghost use Rattle.reply_items.specs.Names.{node_name};
ghost use Rattle.reply_items.specs.Placements.{placement_fields};
ghost use Rattle.m3_replies.specs.Replies.{reply_fields, answer_data};

use m3_model::{Answer, Instance, Placement, Reply, Series};

/// The keys of a reply ascend by their bytes.
pub fn reply_keys_ascend(reply: &Reply, instances: &[Instance])
    ensures { KeysAscend (reply_fields instances.now reply.now) }
{}

/// The keys of a placement ascend by their bytes.
pub fn placement_keys_ascend(placement: &Placement)
    ensures { KeysAscend (placement_fields placement.now) }
{}

/// A text that reads as two replies to reads has one content. Since each printed reply reads
/// back, replies with different series, or with different shortness, have different texts.
pub fn found_text_tells_content(
    text: &str,
    instances: &[Instance],
    series: &[Series],
    others: &[Series],
    short: bool,
    other_short: bool,
)
    ensures { read text.now ≡ Some (answer_data instances.now (Answer.Found series.now short))
        → read text.now ≡ Some (answer_data instances.now (Answer.Found others.now other_short))
        → (series.now ≡ others.now) × (short ≡ other_short) }
{}

/// The same of replies to writes: a text tells the names of the nodes that took the write.
pub fn acks_text_tells_names(text: &str, instances: &[Instance], acks: &[u8], others: &[u8])
    ensures { read text.now ≡ Some (answer_data instances.now (Answer.Acks acks.now))
        → read text.now ≡ Some (answer_data instances.now (Answer.Acks others.now))
        → map (node_name instances.now) acks.now ≡ map (node_name instances.now) others.now }
{}
