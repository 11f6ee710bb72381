ghost use Rattle.std.specs.Prelude.{◌≡◌, true, List, IfOk, IfErr, IsErrOf};
ghost use Rattle.std.specs.Option.{option_copied};
ghost use Rattle.fileset_read.specs.m3_model.declared.point.Series.{Series as Row};
ghost use Rattle.fileset_read.specs.m3_outside.Causes.{CountsFaults};
ghost use Rattle.fileset_read.specs.m3_outside.DiskState.{DiskState, Told};
ghost use Rattle.fileset_read.specs.m3_outside.DiskCalls.{LeavesFiles};
ghost use Rattle.fileset_read.specs.wire_bytes.Volumes.{VolumeHead, IsVolume};
ghost use Rattle.fileset_read.specs.shard_files.Parts.{VolumeHolds};
ghost use Rattle.fileset_read.specs.volume_bytes.Heads.{head_of};
ghost use Rattle.fileset_read.specs.Volumes.{IsThere, IsUndamaged};
ghost use Rattle.fileset_read.specs.declared.file_err.FileErr.TheVariants as failures;
ghost use Rattle.fileset_lookup.specs.Runs.{Gives};
ghost use Rattle.volume_rows.specs.Ranges.{AreRowsFrom};
ghost use Rattle.volume_rows.specs.Seekers.{IsSeekerOf, Seeks};
ghost use Rattle.volume_rows.specs.Stretches.{AreOfExtent, BeginsAt, EndsAt, HasEntriesFrom, HasRecords, HasRecordsFrom, OfVolume};

use crate::entries::Stretch;
use crate::parts::{DATA, INDEX, SUMMARIES, part_name, read_stretch};
use crate::records::in_file;
use crate::seeker::Seeker;
use fileset_lookup::{Extent, find_extent, from_summary, span};
use fileset_read::of_m3_model::{Seq, Series};
use fileset_read::of_m3_outside::Disk;
use fileset_read::of_volume_bytes::Head;
use fileset_read::of_wire_bytes::WireErr;
use fileset_read::{FileErr, rows_in};
use std::alloc::Global;

/// Rows of a volume, one after another.
#[derive(Drop)]
pub struct RowRange {
    pub rows: Seq<Series>,
    /// Whether no row behind them is up to the last identifier that was asked for.
    pub whole: bool,
}

// From where on the index has the entries of all rows that aren't below the identifier.
fn begin_of(seeker: &Seeker, id: &str) -> Result<u64, WireErr>
    ensures { (v : VolumeHead) (rows : List Row) → IsVolume v rows → Seeks v rows seeker.now → Gives result (BeginsAt v.format id.now rows) }
{
    Ok(from_summary(seeker.summaries.as_slice(), id.as_bytes())?.unwrap_or(0))
}

// Up to where the index has the entries of all rows that aren't beyond the last identifier.
fn end_of(seeker: &Seeker, last: Option<&str>) -> Result<u64, WireErr>
    ensures { (v : VolumeHead) (rows : List Row) → IsVolume v rows → Seeks v rows seeker.now → Gives result (EndsAt v.format (option_copied last.entry) rows) }
{
    let Some(last) = last else {
        return Ok(seeker.index_len);
    };
    match span(seeker.summaries.as_slice(), last.as_bytes())? {
        Some(piece) => Ok(piece.to.unwrap_or(seeker.index_len)),
        None => Ok(0),
    }
}

// The piece of the index that has the entries of all rows from the identifier up to the last one.
fn entries_from(seeker: &Seeker, id: &str, last: Option<&str>) -> Result<Stretch, WireErr>
    ensures { (v : VolumeHead) (rows : List Row) → IsVolume v rows → Seeks v rows seeker.now → Gives result (HasEntriesFrom v.format id.now (option_copied last.entry) rows) }
{
    let at = begin_of(seeker, id)?;
    let to = end_of(seeker, last)?;
    Ok(Stretch {
        at,
        len: to.saturating_sub(at),
    })
}

// The bytes of the text, where there is one.
fn bytes_of(text: Option<&str>) -> Option<&[u8]>
    ensures { option_copied result ≡ option_copied text.entry }
{
    Some(text?.as_bytes())
}

// Where the records of these rows stand in the data. The piece of the index is read, where it isn't empty.
fn records_from<D: Disk>(
    alloc: Global,
    disk: &mut D,
    head: &Head,
    stretch: Stretch,
    id: &str,
    last: Option<&str>,
    most: u64,
) -> Result<Extent, FileErr>
    requires there { Told (D.state disk.old) (IsThere (head_of head.now)) }
    requires entries { Told (D.state disk.old) (OfVolume (head_of head.now) (λ rows. HasEntriesFrom 1 id.now (option_copied last) rows stretch)) }
    ensures leaves { LeavesFiles (IsErrOf result failures.Disk) (D.state disk.old) (D.state disk.new) }
    ensures ok { (D.state disk.old).tells ≡ true → IfOk result (λ found. OfVolume (head_of head.now) (λ rows. HasRecordsFrom id.now (option_copied last.entry) most rows found) (D.state disk.old).files) }
    ensures sound { (D.state disk.old).tells ≡ true → IfErr result IsUndamaged }
{
    if stretch.len == 0 {
        return Ok(Extent {
            at: 0,
            len: 0,
            whole: true,
        });
    }
    let file = part_name(INDEX, head);
    let bytes = read_stretch(alloc, disk, file, stretch.at, stretch.len)?;
    match find_extent(bytes.as_slice(), id.as_bytes(), bytes_of(last), most) {
        Ok(extent) => Ok(extent),
        Err(_) => Err(FileErr::Form { file }),
    }
}

// The rows whose records stand there. These are read, where there are any.
fn read_rows<D: Disk>(
    alloc: Global,
    disk: &mut D,
    head: &Head,
    extent: Extent,
) -> Result<Seq<Series>, FileErr>
    requires there { Told (D.state disk.old) (IsThere (head_of head.now)) }
    requires records { Told (D.state disk.old) (OfVolume (head_of head.now) (λ rows. HasRecords rows extent)) }
    ensures leaves { LeavesFiles (IsErrOf result failures.Disk) (D.state disk.old) (D.state disk.new) }
    ensures ok { (D.state disk.old).tells ≡ true → IfOk result (λ found. OfVolume (head_of head.now) (λ rows. AreOfExtent rows extent found) (D.state disk.old).files) }
    ensures sound { (D.state disk.old).tells ≡ true → IfErr result IsUndamaged }
{
    if extent.len == 0 {
        return Ok(Seq::new(alloc));
    }
    let file = part_name(DATA, head);
    let bytes = read_stretch(alloc, disk, file, extent.at, extent.len)?;
    match rows_in(alloc, bytes.as_slice()) {
        Ok(rows) => Ok(rows),
        Err(e) => Err(in_file(e, file)),
    }
}

/// Rows of a volume that counts, from the first one on that isn't below the identifier: all up to the last identifier, where there is
/// one, or the first of them that have as many points as `most` beside those of the first row, and no more than these; whole where
/// none of the former is left out. Two pieces of its files are read: the entries in its index from the identifier, or at most 16
/// before it, to the last one, or at most 15 behind it, and the records of the rows. Where the summaries exclude that there are any,
/// nothing is read.
///
/// # Errors
///
/// A fault, by which the disk's count rose in this call. Want of memory. Damage only where the disk doesn't tell what it holds.
/// In any case the files, and what a stop leaves of them, are as they were.
pub fn rows_from<D: Disk>(
    alloc: Global,
    disk: &mut D,
    head: &Head,
    seeker: &Seeker,
    id: &str,
    last: Option<&str>,
    most: u64,
) -> Result<RowRange, FileErr>
    requires there { Told (D.state disk.old) (IsThere (head_of head.now)) }
    requires seeker { Told (D.state disk.old) (IsSeekerOf (head_of head.now) seeker.now) }
    ensures leaves { LeavesFiles (IsErrOf result failures.Disk) (D.state disk.old) (D.state disk.new) }
    ensures ok { (D.state disk.old).tells ≡ true → IfOk result (λ found. (rows : List Row) → VolumeHolds (head_of head.now) rows (D.state disk.old).files → AreRowsFrom id.now (option_copied last.entry) most rows found) }
    ensures sound { (D.state disk.old).tells ≡ true → IfErr result IsUndamaged }
    ensures faults { CountsFaults (IsErrOf result failures.Disk) (D.state disk.old).faults (D.state disk.new).faults }
{
    let stretch = match entries_from(seeker, id, last) {
        Ok(stretch) => stretch,
        Err(_) => {
            return Err(FileErr::Form {
                file: part_name(SUMMARIES, head),
            });
        }
    };
    let extent = records_from(alloc, disk, head, stretch, id, last, most)?;
    let rows = read_rows(alloc, disk, head, extent)?;
    Ok(RowRange {
        rows,
        whole: extent.whole,
    })
}
