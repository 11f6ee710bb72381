//! The points in memory that no volume has.
ghost use Rattle.std.specs.Prelude.{◌≡◌, map, None, IfOk, OnOk};
ghost use Rattle.m3_model.specs.Contents.{content_of};
ghost use Rattle.store_log.specs.listed_volumes.block_buffer.Taken.{settled_with};
ghost use Rattle.store_log.specs.listed_volumes.wire_bytes.Volumes.{points_of_rows};
ghost use Rattle.store_log.specs.listed_volumes.shard_files.FilesHold.{volume_points};
ghost use Rattle.shard_open.specs.Loads.{known_of};
ghost use Rattle.store_log.specs.listed_volumes.Listed.{known_in};
ghost use Rattle.shard_store.specs.Openings.{beside_volumes};

use crate::volumes::listed;
use m3_model::{Memory, Point, Series};
use shard_open::{Loaded, OpenVolume};
use std::alloc::Global;
use store_log::of_held_points::{HeldPoints, hold};
use store_log::of_listed_volumes::ListedVolume;

// Takes each point out that isn't above one of the rows, which are of this namespace.
fn settle_rows(held: &mut HeldPoints, ns: u8, rows: &[Series]) -> Result<(), Memory>
    requires { held.old.room ≡ None }
    ensures room { held.new.room ≡ None }
    ensures ok { OnOk result (held.new.points ≡ settled_with held.old.points (points_of_rows ns rows.now)) }
{
    for row in rows {
        held.settle(ns, row)?;
    }
    Ok(())
}

// The same for the rows of each of the volumes.
fn settle_volumes(held: &mut HeldPoints, volumes: &[OpenVolume]) -> Result<(), Memory>
    requires { held.old.room ≡ None }
    ensures room { held.new.room ≡ None }
    ensures ok { OnOk result (held.new.points ≡ settled_with held.old.points (volume_points (map known_of volumes.now))) }
{
    for volume in volumes {
        settle_rows(held, volume.volume.head.ns, volume.rows.as_slice())?;
    }
    Ok(())
}

/// The points joined, in memory, without those that aren't above one of a volume. Each point costs logarithmic time.
///
/// # Errors
///
/// Want of memory, always where the points have more than `MOST_REPLICA_POINTS` keys.
pub(crate) fn hold_beside(
    alloc: Global,
    points: &[Point],
    volumes: &[OpenVolume],
) -> Result<HeldPoints, Memory>
    ensures { IfOk result (λ held. held ≡ record { points = settled_with (content_of points.now) (volume_points (map known_of volumes.now)); room = None }) }
{
    let mut held = hold(alloc, points)?;
    settle_volumes(&mut held, volumes)?;
    Ok(held)
}

/// What an opened store has in memory: the points that no volume has, and the volumes.
///
/// # Errors
///
/// Want of memory, always where the points have more than `MOST_REPLICA_POINTS` keys.
pub(crate) fn take_in(
    alloc: Global,
    loaded: &Loaded,
) -> Result<(HeldPoints, Vec<ListedVolume>), Memory>
    ensures held { IfOk result (λ r. r.0 ≡ record { points = beside_volumes loaded.now; room = None }) }
    ensures volumes { IfOk result (λ r. known_in r.1.items ≡ map known_of loaded.now.volumes) }
{
    let volumes = listed(alloc, loaded.volumes.as_slice())?;
    let held = hold_beside(alloc, loaded.points.as_slice(), loaded.volumes.as_slice())?;
    Ok((held, volumes))
}
