ghost use Rattle.std.specs.Prelude.{◌≡◌, Ok};
ghost use Rattle.line_parse.specs.Contents.{content, contents};
ghost use Rattle.line_fields.specs.Fields.{Gives};
ghost use Rattle.line_lists.specs.Fates.{fate_named, fate_of_four, fate_of_items, fate_of, messages_differ, fates_at};

use crate::lists::{Entry, list_at};
use json::Value;
use line_fields::{LineErr, name_in, number_of, text_of};
use line_parse::as_array;
use m3_model::limits::{MOST_CLIENTS, MOST_FATES, TIME_END};
use m3_model::{Duplicate, Fate, Seq, Text};
use std::alloc::Global;
use std::collections::BTreeSet;

fn fate_named(name: &str) -> Result<Fate, LineErr>
    ensures { Gives (λ fate. fate) result (fate_named name.now) }
{
    match name {
        "lose" => Ok(Fate::Lose),
        "twice" => Ok(Fate::Twice),
        "late" => Ok(Fate::Late),
        _ => Err(LineErr::Form),
    }
}

fn fate_of_four(
    alloc: Global,
    client: &Value<'_>,
    call: &Value<'_>,
    node: &Value<'_>,
    name: &Value<'_>,
) -> Result<(u32, u64, Text, Fate), LineErr>
    ensures { Gives (λ fate. fate) result (fate_of_four (content client.now) (content call.now) (content node.now) (content name.now)) }
{
    let client = number_of(client, 0, MOST_CLIENTS as u64 + 1)?;
    let call = number_of(call, 0, TIME_END)?;
    let node = name_in(node)?;
    let fate = fate_named(text_of(name)?)?;
    Ok((client as u32, call, Text::from_str(alloc, node)?, fate))
}

#[tactic(auto, using(crate::proofs::Entries::not_four_items))]
fn fate_of_items(alloc: Global, items: &[Value<'_>]) -> Result<(u32, u64, Text, Fate), LineErr>
    ensures { Gives (λ fate. fate) result (fate_of_items (contents items.now)) }
{
    if items.len() == 4 {
        fate_of_four(alloc, &items[0], &items[1], &items[2], &items[3])
    } else {
        Err(LineErr::Form)
    }
}

impl Entry for (u32, u64, Text, Fate) {
    ghost reading = { fate_of };

    #[tactic(auto, unfolding(crate::specs::Fates::fate_of))]
    fn of_item(alloc: Global, item: &Value<'_>) -> Result<(u32, u64, Text, Fate), LineErr> {
        match as_array(item) {
            None => Err(LineErr::Form),
            Some(items) => fate_of_items(alloc, items),
        }
    }
}

// Whether each fate is of another message than all others. It costs n log n steps for n fates.
fn messages_differ(alloc: Global, fates: &[(u32, u64, Text, Fate)]) -> Result<bool, LineErr>
    ensures { Gives (λ differ. differ) result (Ok (messages_differ fates.now)) }
{
    let mut seen = BTreeSet::new(alloc);
    for fate in fates {
        let node = fate.2.copy(alloc)?;
        if !seen.insert((fate.0, fate.1, node))? {
            return Ok(false);
        }
    }
    Ok(true)
}

/// The field as an array of fates, each of a message of its own; `Form` where it is none such.
#[tactic(auto, unfolding(crate::specs::Fates::fates_at))]
pub fn fates_at(
    alloc: Global,
    value: &Value<'_>,
    key: &str,
) -> Result<Seq<(u32, u64, Text, Fate)>, LineErr>
    ensures { Gives (λ fates. fates) result (fates_at key.now (content value.now)) }
{
    let fates = list_at(alloc, value, key, 0, MOST_FATES)?;
    if messages_differ(alloc, fates.as_slice())? {
        Ok(fates)
    } else {
        Err(LineErr::Form)
    }
}
