ghost use Rattle.std.specs.Prelude.{◌≡◌, Result};
ghost use Rattle.serde_json.specs.Data.{Data};
ghost use Rattle.line_parse.specs.Contents.{content, contents};
ghost use Rattle.line_fields.specs.declared.fault.LineErr.{LineErr};
ghost use Rattle.line_fields.specs.Fields.{Gives};
ghost use Rattle.line_lists.specs.Lists.{has_count, items_at, entries_of, list_at};

use json::Value;
use line_fields::{LineErr, field};
use line_parse::as_array;
use m3_model::Seq;
use std::alloc::Global;

/// What an item of an array spells.
pub(crate) trait Entry: Sized {
    ghost reading: { Data → Result Self LineErr };

    /// The entry that an item is; `Form` where it is none.
    fn of_item(alloc: Global, item: &Value<'_>) -> Result<Self, LineErr>
        ensures { Gives (λ entry. entry) result (reading (content item.now)) };
}

#[tactic(auto, using(crate::proofs::Entries::count_of_values))]
fn has_count(items: &[Value<'_>], least: usize, most: usize) -> bool
    ensures { result ≡ has_count least most (contents items.now) }
{
    (least..=most).contains(&items.len())
}

#[tactic(auto, unfolding(crate::specs::Lists::items_at))]
fn items_at<'v, 'a>(
    value: &'v Value<'a>,
    key: &str,
    least: usize,
    most: usize,
) -> Result<&'v [Value<'a>], LineErr>
    ensures { Gives (λ items. contents items.now) result (items_at key.now least most (content value.now)) }
{
    match as_array(field(value, key)?) {
        Some(items) if has_count(items, least, most) => Ok(items),
        _ => Err(LineErr::Form),
    }
}

fn entries_of<E: Entry + Drop>(alloc: Global, items: &[Value<'_>]) -> Result<Vec<E>, LineErr>
    ensures { Gives (λ entries. entries.items) result (entries_of E.reading (contents items.now)) }
{
    let mut entries = Vec::new(alloc);
    for item in items {
        let entry = E::of_item(alloc, item)?;
        entries.push(entry)?;
    }
    Ok(entries)
}

/// The field as an array of at least `least` and at most `most` entries; `Form` where it is none such.
pub(crate) fn list_at<E: Entry + Drop>(
    alloc: Global,
    value: &Value<'_>,
    key: &str,
    least: usize,
    most: usize,
) -> Result<Seq<E>, LineErr>
    ensures { Gives (λ entries. entries) result (list_at E.reading key.now least most (content value.now)) }
{
    let items = items_at(value, key, least, most)?;
    let entries = entries_of(alloc, items)?;
    Ok(Seq::from_vec(entries))
}
