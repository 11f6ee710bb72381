ghost use Rattle.std.specs.Prelude.{◌≡◌, IfOk, IsSome};
ghost use Rattle.volume_points.specs.wire_bytes.Volumes.{IsVolume};
ghost use Rattle.volume_points.specs.volume_bytes.Heads.{head_of};
ghost use Rattle.listed_volumes.specs.Kept.{HasSeeker, IsOfRows};
ghost use Rattle.listed_volumes.specs.Listed.{IsReady, known_as};

use crate::volume::ListedVolume;
use m3_model::{Memory, Seq, Series};
use std::alloc::Global;
use std::snapshot::Snapshot;
use volume_points::of_fileset_check::is_volume;
use volume_points::of_volume_bytes::{Head, Tables, bloom_filter, tables_of};
use volume_points::of_volume_rows::Seeker;

// The seeker of a volume of this head and these rows.
fn seeker_from(alloc: Global, head: &Head, rows: &[Series]) -> Result<Seeker, Memory>
    requires { IsVolume (head_of head.now) rows.now }
    ensures { IfOk result (IsOfRows rows.now) }
{
    let Tables {
        index,
        summaries,
        ..
    } = tables_of(alloc, rows)?;
    let bloom = bloom_filter(alloc, rows)?;
    Ok(Seeker {
        bloom,
        summaries,
        index_len: index.len() as u64,
    })
}

// The same, where there may be such a volume.
fn keep_seeker(alloc: Global, head: &Head, rows: &[Series]) -> Result<Option<Seeker>, Memory>
    ensures rows { IfOk result (HasSeeker rows.now) }
    ensures there { IsVolume (head_of head.now) rows.now → IfOk result (λ seeker. IsSome seeker) }
{
    if !is_volume(head, rows) {
        return Ok(None);
    }
    Ok(Some(seeker_from(alloc, head, rows)?))
}

/// The volume of this head and these rows, to be listed; with its seeker where the rows may be those of such a volume. That is made
/// of the rows, in time in proportion to their bytes.
///
/// # Errors
///
/// Want of memory.
pub fn list_volume(alloc: Global, head: Head, rows: &Seq<Series>) -> Result<ListedVolume, Memory>
    ensures known { IfOk result (λ volume. known_as volume ≡ record { head = head_of head; rows = rows.now }) }
    ensures ready { IsVolume (head_of head) rows.now → IfOk result IsReady }
{
    let seeker = keep_seeker(alloc, &head, rows.as_slice())?;
    Ok(ListedVolume {
        head,
        rows: Snapshot::of(rows),
        seeker,
    })
}
