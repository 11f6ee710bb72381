//! Which points are new to points in memory joined with those of volumes, or raise what stands there.
ghost use Rattle.std.specs.Prelude.{◌≡◌, ◌++◌, ◌∷◌, [], ◌+◌, ◌≤◌, None, true, length, OnOk, IfOk, IfErr, IsErrOf};
ghost use Rattle.m3_model.specs.declared.point.Pick.TheVariants as pick;
ghost use Rattle.m3_outside.specs.DiskState.{DiskState, Told};
ghost use Rattle.m3_outside.specs.DiskCalls.{LeavesFiles};
ghost use Rattle.listed_volumes.specs.fileset_read.Volumes.{IsUndamaged};
ghost use Rattle.listed_volumes.specs.fileset_read.declared.file_err.FileErr.TheVariants as failures;
ghost use Rattle.listed_volumes.specs.wire_bytes.Entries.{AllBounded, IsBounded};
ghost use Rattle.listed_volumes.specs.Listed.{AreHeld, known_in};
ghost use Rattle.held_pages.specs.Rises.{AreOfSeries, points_of};
ghost use Rattle.joined_reads.specs.Beside.{AddsRises, AreCachedOn, content_beside, rises, risen_in};

use crate::fetching::fetch_joined;
use held_pages::{Rise, is_above, rise_of};
use listed_volumes::of_fileset_read::FileErr;
use listed_volumes::of_held_points::HeldPoints;
use listed_volumes::{ListedVolume, RowCache};
use m3_model::{Duplicate, Pick, Point};
use m3_outside::Disk;
use std::alloc::Global;

// The pick of the point's series.
fn pick_of(alloc: Global, point: &Point) -> Result<Pick, FileErr>
    ensures ok { IfOk result (λ found. found ≡ pick.One point.now.ns point.now.id) }
    ensures err { IfErr result (λ why. why ≡ failures.Memory) }
{
    match point.id.copy(alloc) {
        Ok(id) => Ok(Pick::One { ns: point.ns, id }),
        Err(_) => Err(FileErr::Memory),
    }
}

// Adds the point to those that rise.
fn add_rise(alloc: Global, point: &Point, found: &mut Vec<Rise>) -> Result<(), FileErr>
    requires bounded { IsBounded point.now }
    ensures points { OnOk result (points_of found.new.items ≡ points_of found.old.items ++ point.now ∷ []) }
    ensures adds { OnOk result (AddsRises (point.now ∷ []) found.old.items found.new.items) }
    ensures err { IfErr result (λ why. why ≡ failures.Memory) }
{
    let Ok(rise) = rise_of(alloc, point) else {
        return Err(FileErr::Memory);
    };
    let Ok(()) = found.push(rise) else {
        return Err(FileErr::Memory);
    };
    Ok(())
}

// Whether the point is new to the content, or raises what stands at its key.
fn is_risen<D: Disk>(
    alloc: Global,
    disk: &mut D,
    held: &HeldPoints,
    volumes: &[ListedVolume],
    kept: &mut RowCache,
    point: &Point,
) -> Result<bool, FileErr>
    requires bounded { IsBounded point.now }
    requires room { held.now.room ≡ None }
    requires there { Told (D.state disk.old) (AreHeld (known_in volumes.now)) }
    requires cached { AreCachedOn volumes.now kept.old (D.state disk.old) }
    ensures risen { (D.state disk.old).tells ≡ true → IfOk result (λ b. b ≡ rises (content_beside held.now.points volumes.now) point.now) }
    ensures leaves { LeavesFiles (IsErrOf result failures.Disk) (D.state disk.old) (D.state disk.new) }
    ensures sound { (D.state disk.old).tells ≡ true → IfErr result IsUndamaged }
    ensures cached { AreCachedOn volumes.now kept.new (D.state disk.new) }
{
    let pick = pick_of(alloc, point)?;
    let found = fetch_joined(
        alloc,
        disk,
        held,
        volumes,
        kept,
        &pick,
        point.t,
        point.t + 1,
    )?;
    Ok(is_above(&found, point.v))
}

// Adds the point to those that rise, where it does.
fn add_risen<D: Disk>(
    alloc: Global,
    disk: &mut D,
    held: &HeldPoints,
    volumes: &[ListedVolume],
    kept: &mut RowCache,
    point: &Point,
    found: &mut Vec<Rise>,
) -> Result<(), FileErr>
    requires bounded { IsBounded point.now }
    requires room { held.now.room ≡ None }
    requires there { Told (D.state disk.old) (AreHeld (known_in volumes.now)) }
    requires cached { AreCachedOn volumes.now kept.old (D.state disk.old) }
    ensures points { (D.state disk.old).tells ≡ true → OnOk result (points_of found.new.items ≡ points_of found.old.items ++ risen_in (content_beside held.now.points volumes.now) (point.now ∷ [])) }
    ensures adds { OnOk result (AddsRises (point.now ∷ []) found.old.items found.new.items) }
    ensures leaves { LeavesFiles (IsErrOf result failures.Disk) (D.state disk.old) (D.state disk.new) }
    ensures sound { (D.state disk.old).tells ≡ true → IfErr result IsUndamaged }
    ensures cached { AreCachedOn volumes.now kept.new (D.state disk.new) }
{
    if !is_risen(alloc, disk, held, volumes, kept, point)? {
        return Ok(());
    }
    add_rise(alloc, point, found)
}

// Adds those of the points that rise.
fn add_all<D: Disk>(
    alloc: Global,
    disk: &mut D,
    held: &HeldPoints,
    volumes: &[ListedVolume],
    kept: &mut RowCache,
    points: &[Point],
    found: &mut Vec<Rise>,
) -> Result<(), FileErr>
    requires bounded { AllBounded points.now }
    requires room { held.now.room ≡ None }
    requires there { Told (D.state disk.old) (AreHeld (known_in volumes.now)) }
    requires cached { AreCachedOn volumes.now kept.old (D.state disk.old) }
    ensures points { (D.state disk.old).tells ≡ true → OnOk result (points_of found.new.items ≡ points_of found.old.items ++ risen_in (content_beside held.now.points volumes.now) points.now) }
    ensures adds { OnOk result (AddsRises points.now found.old.items found.new.items) }
    ensures leaves { LeavesFiles (IsErrOf result failures.Disk) (D.state disk.old) (D.state disk.new) }
    ensures sound { (D.state disk.old).tells ≡ true → IfErr result IsUndamaged }
    ensures cached { AreCachedOn volumes.now kept.new (D.state disk.new) }
{
    let Some((first, later)) = points.split_first() else {
        return Ok(());
    };
    add_risen(alloc, disk, held, volumes, kept, first, found)?;
    add_all(alloc, disk, held, volumes, kept, later, found)
}

/// Those of the points, each within its bounds, that are new to the points in memory joined with those of the volumes, of which each is
/// there whole, or that raise what stands at their key: in turn, each with its series. It costs a read of one series at one time
/// for each of the points.
///
/// # Errors
///
/// A fault, by which the disk's count rose in this call. Want of memory. Damage only where the disk doesn't tell what it holds.
/// In any case the files, and what a stop leaves of them, are as they were, and what is kept of each volume are its rows.
pub fn risen<D: Disk>(
    alloc: Global,
    disk: &mut D,
    held: &HeldPoints,
    volumes: &[ListedVolume],
    kept: &mut RowCache,
    points: &[Point],
) -> Result<Vec<Rise>, FileErr>
    requires bounded { AllBounded points.now }
    requires room { held.now.room ≡ None }
    requires there { Told (D.state disk.old) (AreHeld (known_in volumes.now)) }
    requires cached { AreCachedOn volumes.now kept.old (D.state disk.old) }
    ensures points { (D.state disk.old).tells ≡ true → IfOk result (λ found. points_of found.items ≡ risen_in (content_beside held.now.points volumes.now) points.now) }
    ensures few { IfOk result (λ found. length found.items ≤ length points.now) }
    ensures bounded { IfOk result (λ found. AllBounded (points_of found.items)) }
    ensures series { IfOk result (λ found. AreOfSeries found.items) }
    ensures leaves { LeavesFiles (IsErrOf result failures.Disk) (D.state disk.old) (D.state disk.new) }
    ensures sound { (D.state disk.old).tells ≡ true → IfErr result IsUndamaged }
    ensures cached { AreCachedOn volumes.now kept.new (D.state disk.new) }
{
    let mut found = Vec::new(alloc);
    add_all(alloc, disk, held, volumes, kept, points, &mut found)?;
    Ok(found)
}
