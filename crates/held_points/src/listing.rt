ghost use Rattle.std.specs.Prelude.{◌≡◌, None, IsTrue, IfOk, OnErr, MatchBool};
ghost use Rattle.m3_model.specs.Tags.{HasTags};
ghost use Rattle.tag_index.specs.Listed.{Listed, IsPresent};
ghost use Rattle.held_points.specs.Indexed.{IsNewlyListed, WasListed, IsForgotten};

use crate::counted::CountedBuffer;
use m3_model::{Memory, Seq, Text};
use series_id::{IdErr, parse};
use series_slots::SeriesKey;
use std::alloc::Global;
use tag_index::Index;

// The tags of the identifier. A text that is no identifier has none.
fn tags_of(alloc: Global, id: &str) -> Result<Seq<(Text, Text)>, Memory>
    ensures { IfOk result (λ tags. HasTags id.now tags) }
{
    match parse(alloc, id) {
        Ok(parsed) => parsed.tags(alloc),
        Err(IdErr::Memory) => Err(Memory),
        Err(_) => Ok(Seq::new(alloc)),
    }
}

// Lists the series with its tags, and says whether it wasn't listed before. One known to be listed isn't sought. Want of
// memory changes nothing.
pub(crate) fn list(alloc: Global, index: &mut Index, known: bool, id: &Text) -> Result<bool, Memory>
    requires { IsTrue known → IsPresent index.old id.now }
    ensures ok { IfOk result (λ newly. MatchBool newly (IsNewlyListed index.old index.new id.now) (WasListed index.old index.new id.now)) }
    ensures err { OnErr result (index.new ≡ index.old) }
{
    if known || index.has(id.as_str()) {
        return Ok(false);
    }
    let tags = tags_of(alloc, id.as_str())?;
    index.add(id, &tags)?;
    Ok(true)
}

// Leaves the index as it was before the series was listed. Takes no memory.
pub(crate) fn unlist(index: &mut Index, newly: bool, id: &Text)
    ensures { (before : Listed) → MatchBool newly (IsNewlyListed before index.old id.now) (WasListed before index.old id.now) → index.new ≡ before }
{
    if newly {
        index.remove(id.as_str());
    }
}

// Takes the series' identifier out of the index, where a series is named and no point with its identifier is held in
// whatever namespace. Takes no memory.
pub(crate) fn forget(buffer: &CountedBuffer, index: &mut Index, gone: Option<SeriesKey>)
    requires { buffer.now.room ≡ None }
    ensures { IsForgotten buffer.now.points gone index.old index.new }
{
    if let Some(series) = gone {
        if let Some(id) = buffer.unheld(series) {
            index.remove(id.as_str());
        }
    }
}
