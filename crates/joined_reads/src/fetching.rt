//! Points read: those in memory joined with those of volumes.
ghost use Rattle.std.specs.Prelude.{◌≡◌, ℕ, List, true, None, IfOk, IfErr, IsErrOf};
ghost use Rattle.m3_model.specs.Answers.{IsAnswer};
ghost use Rattle.m3_model.specs.Contents.{Contents, content_of};
ghost use Rattle.m3_model.specs.Reads.{IsOrdered};
ghost use Rattle.m3_model.specs.declared.point.Pick.{Pick as Wanted};
ghost use Rattle.m3_model.specs.declared.point.Point.{Point};
ghost use Rattle.m3_outside.specs.DiskState.{DiskState, Told};
ghost use Rattle.m3_outside.specs.DiskCalls.{LeavesFiles};
ghost use Rattle.listed_volumes.specs.block_buffer.Joins.{joined};
ghost use Rattle.listed_volumes.specs.fileset_read.Volumes.{IsUndamaged};
ghost use Rattle.listed_volumes.specs.fileset_read.declared.file_err.FileErr.TheVariants as failures;
ghost use Rattle.listed_volumes.specs.series_merge.Merges.{IsMergeOf};
ghost use Rattle.listed_volumes.specs.Listed.{AreHeld, known_in};
ghost use Rattle.joined_reads.specs.Beside.{AreCachedOn, content_beside};

use listed_volumes::of_fileset_read::FileErr;
use listed_volumes::of_held_points::HeldPoints;
use listed_volumes::{ListedVolume, RowCache, fetch, join};
use m3_model::{Pick, Seq, Series};
use m3_outside::Disk;
use std::alloc::Global;

/// The points in memory that a read asks for, as `HeldPoints::fetch`.
///
/// # Errors
///
/// Want of memory.
pub fn fetch_held(
    held: &HeldPoints,
    pick: &Pick,
    from: u64,
    to: u64,
) -> Result<Seq<Series>, FileErr>
    requires { held.now.room ≡ None }
    ensures answer { IfOk result (IsAnswer held.now.points pick.now from to) }
    ensures err { IfErr result (λ why. why ≡ failures.Memory) }
{
    match held.fetch(pick, from, to) {
        Ok(found) => Ok(found),
        Err(_) => Err(FileErr::Memory),
    }
}

/// Both answers in one, as `join`.
///
/// # Errors
///
/// Want of memory.
pub fn join_both(
    alloc: Global,
    one: Seq<Series>,
    other: Seq<Series>,
) -> Result<Seq<Series>, FileErr>
    requires one { IsOrdered one }
    requires other { IsOrdered other }
    ensures merge { IfOk result (IsMergeOf one other) }
    ensures answer { IfOk result (λ series. (c : Contents) (points : List Point) (pick : Wanted) (from to : ℕ) → IsAnswer c pick from to one → IsAnswer (content_of points) pick from to other → IsAnswer (joined c points) pick from to series) }
    ensures err { IfErr result (λ why. why ≡ failures.Memory) }
{
    match join(alloc, one, other) {
        Ok(series) => Ok(series),
        Err(_) => Err(FileErr::Memory),
    }
}

/// The points with `from <= t < to` of the series that the pick asks for, in memory and of volumes, of which each is there whole. Rows of
/// volumes that it reads for matchers are kept.
///
/// It costs as `HeldPoints::fetch` and `listed_volumes::fetch`.
///
/// # Errors
///
/// A fault, by which the disk's count rose in this call. Want of memory. Damage only where the disk doesn't tell what it holds.
/// In any case the files, and what a stop leaves of them, are as they were, and what is kept of each volume are its rows.
pub fn fetch_joined<D: Disk>(
    alloc: Global,
    disk: &mut D,
    held: &HeldPoints,
    volumes: &[ListedVolume],
    kept: &mut RowCache,
    pick: &Pick,
    from: u64,
    to: u64,
) -> Result<Seq<Series>, FileErr>
    requires room { held.now.room ≡ None }
    requires there { Told (D.state disk.old) (AreHeld (known_in volumes.now)) }
    requires cached { AreCachedOn volumes.now kept.old (D.state disk.old) }
    ensures answer { (D.state disk.old).tells ≡ true → IfOk result (IsAnswer (content_beside held.now.points volumes.now) pick.now from to) }
    ensures ordered { IfOk result IsOrdered }
    ensures leaves { LeavesFiles (IsErrOf result failures.Disk) (D.state disk.old) (D.state disk.new) }
    ensures sound { (D.state disk.old).tells ≡ true → IfErr result IsUndamaged }
    ensures cached { AreCachedOn volumes.now kept.new (D.state disk.new) }
{
    let here = fetch_held(held, pick, from, to)?;
    let there = fetch(alloc, disk, volumes, kept, pick, from, to)?;
    join_both(alloc, here, there)
}
