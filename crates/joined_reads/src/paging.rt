//! Pages of the points in memory joined with those of volumes.
ghost use Rattle.std.specs.Prelude.{◌≡◌, ◌+◌, true, Option, IfOk, IfErr, IsErrOf};
ghost use Rattle.std.specs.Option.{option_copied};
ghost use Rattle.m3_model.specs.Contents.{Contents};
ghost use Rattle.m3_model.specs.declared.limits.TheConstants.{MOST_PAGE_POINTS as MOST_POINTS};
ghost use Rattle.m3_model.specs.declared.point.Key.{Key as Last};
ghost use Rattle.m3_outside.specs.DiskState.{DiskState, Told};
ghost use Rattle.m3_outside.specs.DiskCalls.{LeavesFiles};
ghost use Rattle.listed_volumes.specs.fileset_read.Volumes.{IsUndamaged};
ghost use Rattle.listed_volumes.specs.fileset_read.declared.file_err.FileErr.TheVariants as failures;
ghost use Rattle.listed_volumes.specs.Listed.{AreHeld, known_in};
ghost use Rattle.first_points.specs.Firsts.{AreFirst, IsPageOf};
ghost use Rattle.first_points.specs.Merges.{IsJoinOf};
ghost use Rattle.held_pages.specs.Walks.{EndsInTime};
ghost use Rattle.joined_reads.specs.Beside.{AreCachedOn, content_beside};

use listed_volumes::of_fileset_read::FileErr;
use listed_volumes::of_held_points::HeldPoints;
use listed_volumes::{ListedVolume, RowCache, first_listed};
use m3_model::limits::MOST_PAGE_POINTS;
use m3_model::{Key, Page, Point, Seq};
use m3_outside::Disk;
use std::alloc::Global;

// The points of a page, and one that follows.
const LIMIT: usize = MOST_PAGE_POINTS + 1;

// The first points in memory above the key.
fn first_held(alloc: Global, held: &HeldPoints, after: Option<&Key>) -> Result<Seq<Point>, FileErr>
    ensures first { EndsInTime held.now.points → IfOk result (AreFirst held.now.points (option_copied after.entry) (MOST_POINTS + 1)) }
    ensures err { IfErr result (λ why. why ≡ failures.Memory) }
{
    match held_pages::first_held(alloc, held, after, LIMIT) {
        Ok(first) => Ok(first),
        Err(_) => Err(FileErr::Memory),
    }
}

// The page of the first points of two contents, joined, of which those of each are given, with one more than a page may have.
fn page_of_both(alloc: Global, one: Seq<Point>, other: Seq<Point>) -> Result<Page, FileErr>
    ensures page { (c d join : Contents) (after : Option Last) → IsJoinOf c d join → AreFirst c after (MOST_POINTS + 1) one → AreFirst d after (MOST_POINTS + 1) other → IfOk result (IsPageOf join after) }
    ensures err { IfErr result (λ why. why ≡ failures.Memory) }
{
    match held_pages::page_of_both(alloc, one, other) {
        Ok(page) => Ok(page),
        Err(_) => Err(FileErr::Memory),
    }
}

/// The page of the first points above the key, in memory and of volumes, of which each is there whole: the first 64, or all that there
/// are. It goes on from the key of its last point exactly where a point stands above that. Rows of volumes that it reads are kept.
///
/// It costs as `first_held` and `first_listed`.
///
/// # Errors
///
/// A fault, by which the disk's count rose in this call. Want of memory. Damage only where the disk doesn't tell what it holds.
/// In any case the files, and what a stop leaves of them, are as they were, and what is kept of each volume are its rows.
pub fn page_joined<D: Disk>(
    alloc: Global,
    disk: &mut D,
    held: &HeldPoints,
    volumes: &[ListedVolume],
    kept: &mut RowCache,
    after: Option<&Key>,
) -> Result<Page, FileErr>
    requires times { (D.state disk.old).tells ≡ true → EndsInTime held.now.points }
    requires there { Told (D.state disk.old) (AreHeld (known_in volumes.now)) }
    requires cached { AreCachedOn volumes.now kept.old (D.state disk.old) }
    ensures page { (D.state disk.old).tells ≡ true → IfOk result (IsPageOf (content_beside held.now.points volumes.now) (option_copied after.entry)) }
    ensures leaves { LeavesFiles (IsErrOf result failures.Disk) (D.state disk.old) (D.state disk.new) }
    ensures sound { (D.state disk.old).tells ≡ true → IfErr result IsUndamaged }
    ensures cached { AreCachedOn volumes.now kept.new (D.state disk.new) }
{
    let here = first_held(alloc, held, after)?;
    let there = first_listed(alloc, disk, volumes, kept, after, LIMIT)?;
    page_of_both(alloc, here, there)
}
