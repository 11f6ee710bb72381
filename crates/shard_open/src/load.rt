ghost use Rattle.std.specs.Prelude.{◌≡◌, ◌≤◌, ◌++◌, max, true, length, IfOk, IfErr, IsErrOf};
ghost use Rattle.snapshot_files.specs.m3_outside.Causes.{CountsFaults};
ghost use Rattle.snapshot_files.specs.m3_outside.DiskState.{DiskState, Told, EachImage, Elapses};
ghost use Rattle.snapshot_files.specs.m3_outside.DiskCalls.{LeavesFiles};
ghost use Rattle.snapshot_files.specs.m3_outside.Files.{Files, Stays};
ghost use Rattle.snapshot_files.specs.commit_log.Contents.{numbers as numbers_in};
ghost use Rattle.snapshot_files.specs.commit_log.LogEnd.{NoneFrom};
ghost use Rattle.snapshot_files.specs.shard_files.Once.{HeldOnce, IsEachOnce};
ghost use Rattle.snapshot_files.specs.shard_files.Parts.{IsNewestNumber};
ghost use Rattle.snapshot_files.specs.shard_files.declared.load_err.LoadErr.TheVariants as failures;
ghost use Rattle.shard_open.specs.Claims.{claims_by_tenure};
ghost use Rattle.shard_open.specs.Loads.{AreOpened};
ghost use Rattle.shard_open.specs.Told.{AreApart, MayBeUnsound};

use crate::claims::claim_by_tenure;
use crate::log::held_entries;
use crate::newest::{Newest, read_newest};
use crate::once::each_once;
use crate::volumes::{OpenVolume, open_volumes};
use boot_chain::Claims;
use m3_model::{Memory, Point, Seq};
use snapshot_files::of_m3_outside::Disk;
use snapshot_files::of_m3_outside::sync_all::sync_all;
use snapshot_files::of_shard_files::{Amount, LoadErr, join_entries};
use std::alloc::Global;

/// What a replica's disk holds.
#[derive(Drop)]
pub struct Loaded {
    /// The points of its volumes, of its newest snapshot and of its log, each once, ascending by key and then by value: also
    /// several of one key.
    pub points: Seq<Point>,
    /// The greatest tenure, and 0 where there is none.
    pub tenure: u64,
    /// The greatest fence or tenure, and 0 where there is none.
    pub fence: u64,
    /// The number for the next segment: one above all that are there, and 1 where none is.
    pub next_segment: u64,
    /// How many segments are there.
    pub segments: u64,
    /// The number of the newest snapshot that counts, and 0 where none counts.
    pub snapshot: u64,
    /// The volumes that count, ascending by namespace, start and number.
    pub volumes: Seq<OpenVolume>,
    /// Which bootstrapper claims which times of the shard, of all times of each namespace that there may be: where there is a tenure,
    /// the filesystem's the blocks with a volume that counts, and the commit log's the rest; where there is none, the last one all.
    pub claims: Claims,
}

// The points, each once, of volumes, a snapshot and a log.
fn join_points(
    alloc: Global,
    mut of_volumes: Vec<Point>,
    of_snapshot: Seq<Point>,
    of_log: Seq<Point>,
) -> Result<Seq<Point>, Memory>
    ensures { IfOk result (IsEachOnce (of_volumes.items ++ (of_snapshot ++ of_log))) }
{
    of_volumes.append(&mut of_snapshot.into_vec())?;
    of_volumes.append(&mut of_log.into_vec())?;
    each_once(alloc, Seq::from_vec(of_volumes))
}

fn greater(a: u64, b: u64) -> u64
    ensures { result ≡ max a b }
{
    a.max(b)
}

// Reads what the files of a disk hold, as reads give them.
fn read_disk<D: Disk>(alloc: Global, disk: &mut D) -> Result<Loaded, LoadErr>
    ensures leaves { LeavesFiles (IsErrOf result failures.Disk) (D.state disk.old) (D.state disk.new) }
    ensures ok { (D.state disk.old).tells ≡ true → IfOk result (λ l. HeldOnce l.points l.tenure l.fence (D.state disk.old).files) }
    ensures volumes { (D.state disk.old).tells ≡ true → IfOk result (λ l. AreOpened l.volumes (D.state disk.old).files) }
    ensures snapshot { (D.state disk.old).tells ≡ true → IfOk result (λ l. IsNewestNumber l.snapshot (D.state disk.old).files) }
    ensures segments { (D.state disk.old).tells ≡ true → IfOk result (λ l. l.segments ≡ length (numbers_in (D.state disk.old).files)) }
    ensures fresh { IfOk result (λ l. Told (D.state disk.new) (NoneFrom l.next_segment)) }
    ensures order { IfOk result (λ l. l.tenure ≤ l.fence) }
    ensures claims { IfOk result (λ l. l.claims ≡ claims_by_tenure l.tenure l.volumes) }
    ensures err { (D.state disk.old).tells ≡ true → IfErr result (MayBeUnsound (D.state disk.old).files) }
    ensures apart { IfErr result AreApart }
{
    let mut of_volumes = Vec::new(alloc);
    let volumes = open_volumes(alloc, disk, &mut of_volumes)?;
    let newest = read_newest(alloc, disk)?;
    let log = held_entries(alloc, disk)?;
    let amount = join_entries(alloc, log.entries)?;
    let tenure = greater(newest.tenure, amount.tenure);
    let claims = claim_by_tenure(alloc, volumes.as_slice(), tenure)?;
    Ok(Loaded {
        points: join_points(alloc, of_volumes, newest.points, amount.points)?,
        tenure,
        fence: greater(newest.fence, amount.fence),
        next_segment: log.next,
        segments: log.segments,
        snapshot: newest.number,
        volumes,
        claims,
    })
}

/// Syncs each file of a disk and reads what they hold: this is then what each stop leaves. The volumes and the newest snapshot are
/// checked whole. The log goes on in a fresh segment of the number `next_segment`, and never in one that was read. Each point costs
/// logarithmic time. Then the bootstrappers are run, which claim the times of the shard by what was read.
///
/// # Errors
///
/// A fault. Damage, of the first of these that isn't whole: a volume that counts, by namespace, start and number, the newest snapshot
/// that counts, a segment by number. It is two digests that differ, or the first offset at which no such file goes on, in a segment also
/// at which a whole chunk stops to be an entry; of data that keeps to its digest no offset is told. An older snapshot isn't looked into.
/// Want of memory, also where the next segment would have the number `NUMBER_END` or a higher one. Reads give what they gave, and a
/// stop leaves what it might have left before.
pub fn load<D: Disk>(alloc: Global, disk: &mut D) -> Result<Loaded, LoadErr>
    ensures ok { IfOk result (λ l. Told (D.state disk.new) (HeldOnce l.points l.tenure l.fence)) }
    ensures volumes { IfOk result (λ l. Told (D.state disk.new) (AreOpened l.volumes)) }
    ensures snapshot { IfOk result (λ l. Told (D.state disk.new) (IsNewestNumber l.snapshot)) }
    ensures segments { IfOk result (λ l. Told (D.state disk.new) (λ files. l.segments ≡ length (numbers_in files))) }
    ensures only { IfOk result (λ _. EachImage (D.state disk.new) (λ c. c ≡ (D.state disk.new).files)) }
    ensures fresh { IfOk result (λ l. Told (D.state disk.new) (NoneFrom l.next_segment)) }
    ensures order { IfOk result (λ l. l.tenure ≤ l.fence) }
    ensures claims { IfOk result (λ l. l.claims ≡ claims_by_tenure l.tenure l.volumes) }
    ensures err { IfErr result (λ e. Told (D.state disk.old) (λ files. MayBeUnsound files e)) }
    ensures apart { IfErr result AreApart }
    ensures any_moment { (D.state disk.old).tells ≡ true → Elapses Stays (D.state disk.old) (D.state disk.new) }
    ensures files { (D.state disk.old).tells ≡ true → (D.state disk.new).files ≡ (D.state disk.old).files }
    ensures tells { (D.state disk.new).tells ≡ (D.state disk.old).tells }
    ensures faults { CountsFaults (IsErrOf result failures.Disk) (D.state disk.old).faults (D.state disk.new).faults }
{
    sync_all(disk)?;
    read_disk(alloc, disk)
}
