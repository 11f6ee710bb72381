//! Laws over the definitions of what files hold whole: volumes, snapshots and the log.
ghost use Rattle.std.specs.Prelude.{[]};
ghost use Rattle.std.specs.FinMap.{empty};
ghost use Rattle.shard_files.specs.FilesHold.{HoldWhole};
ghost use Rattle.shard_files.specs.FileLaws.{FilesHoldOne, FilesHoldOrdered, VolumeIsHeld, SnapshotIsHeld, LogIsHeld, CountedByCheckpoints, EachByItsFiles, AppendKeepsOthers, AppendBrings};
ghost use Rattle.shard_files.specs.Damage.{DamagedHoldNothing, DamageIsOne, ToldDigestsDiffer};
ghost use Rattle.shard_files.specs.Keeps.{KeepsThen, StopKeeps};
ghost use Rattle.shard_files.specs.Loading.{LogDamageIsFirst};
ghost use Rattle.shard_files.specs.StepLaws.{DoneIsStep, WriteKeeps, NextVolumeIsNew, TakeKeeps, SaveKeeps, NextSnapshotIsNew, CutKeeps, ClearKeeps, TakenByNames, StepsKeep, ClosedIsUncounted, VolumeNeedsItsFiles, CheckpointGoesFirst, SnapshotNeedsItsData};

use commit_log::of_m3_outside::Disk;

/// Files hold at most one list of points, with one tenure and one fence.
pub fn files_hold_one()
    ensures { FilesHoldOne }
{}

/// What files hold has a tenure that isn't above its fence.
pub fn files_hold_ordered()
    ensures { FilesHoldOrdered }
{}

/// Where there are no files, nothing is held.
pub fn no_files_hold_whole_nothing()
    ensures { HoldWhole [] 0 0 empty }
{}

/// Files that are those of one volume alone hold its points.
pub fn volume_is_held()
    ensures { VolumeIsHeld }
{}

/// Files that are those of one snapshot alone hold its points, its tenure and its fence.
pub fn snapshot_is_held()
    ensures { SnapshotIsHeld }
{}

/// Files of a log alone hold, by volumes, snapshots and log, just what they hold by the log.
pub fn log_is_held()
    ensures { LogIsHeld }
{}

/// Which volumes and which snapshots count is a matter of the checkpoints alone.
pub fn counted_by_checkpoints()
    ensures { CountedByCheckpoints }
{}

/// The volumes are a matter of the files of volumes alone, snapshots of theirs, and the log of its segments.
pub fn each_by_its_files()
    ensures { EachByItsFiles }
{}

/// An append to the log changes no volume and no snapshot.
pub fn append_keeps_others()
    ensures { AppendKeepsOthers }
{}

/// An append of an entry brings what is in the entry, and while it goes on part of that; a segment that begins brings
/// nothing.
pub fn append_brings()
    ensures { AppendBrings }
{}

/// A stop at any moment while a volume is written, or afterwards, leaves all that is to be kept, with the tenure and the
/// fence. The volume's files are new, and its points were file points before.
pub fn write_keeps()
    ensures { WriteKeeps }
{}

/// No file of the volume with the next number is there.
pub fn next_volume_is_new()
    ensures { NextVolumeIsNew }
{}

/// A stop while a volume is taken away, its checkpoint first, leaves all that is to be kept, where each such point stands
/// elsewhere too.
pub fn take_keeps()
    ensures { TakeKeeps }
{}

/// A stop while a snapshot is saved leaves all that is to be kept. Its files are new, it is above all others, and has the
/// tenure and the fence of the files.
pub fn save_keeps()
    ensures { SaveKeeps }
{}

/// Neither file of the snapshot with the next number is there, and it is above all that count.
pub fn next_snapshot_is_new()
    ensures { NextSnapshotIsNew }
{}

/// A stop while the log is cut leaves all that is to be kept, where volumes and the newest snapshot have it.
pub fn cut_keeps()
    ensures { CutKeeps }
{}

/// A stop while snapshots below a number are taken away, all checkpoints first, leaves all that is to be kept, where the
/// newest isn't one of them.
pub fn clear_keeps()
    ensures { ClearKeeps }
{}

/// A volume or a snapshot that was written counts, one that wasn't doesn't, and both are steps of its writing.
pub fn done_is_step()
    ensures { DoneIsStep }
{}

/// Which files are taken away is a matter of the names that are there.
pub fn taken_by_names()
    ensures { TakenByNames }
{}

/// Each of these steps, on a disk of which every image allows it, leaves what is to be kept wherever a stop falls.
pub fn steps_keep<D: Disk>()
    ensures { StepsKeep D.state }
{}

/// Calls one after another that keep the same keep it together.
pub fn keeps_then()
    ensures { KeepsThen }
{}

/// A stop at any moment since a call began that rearranges files leaves what is to be kept of what one of the images held.
pub fn stop_keeps<D: Disk>()
    ensures { StopKeeps D.state }
{}

/// A volume whose gate is closed, or whose checkpoint isn't there, doesn't count.
pub fn closed_is_uncounted()
    ensures { ClosedIsUncounted }
{}

/// Files hold nothing in which a volume counts that lacks one of its files.
pub fn volume_needs_its_files()
    ensures { VolumeNeedsItsFiles }
{}

/// A volume that counts can't be taken away but with its checkpoint first.
pub fn checkpoint_goes_first()
    ensures { CheckpointGoesFirst }
{}

/// Files aren't sound in which a snapshot counts, also an older one, that lacks its data.
pub fn snapshot_needs_its_data()
    ensures { SnapshotNeedsItsData }
{}

/// Files with damage hold nothing.
pub fn damaged_hold_nothing()
    ensures { DamagedHoldNothing }
{}

/// Files have at most one first damage.
pub fn damage_is_one()
    ensures { DamageIsOne }
{}

/// Where the volumes and the newest snapshot that count are whole, the first damage of the log is the first of all files.
pub fn log_damage_is_first()
    ensures { LogDamageIsFirst }
{}

/// Where digests are told of a file, the one that is found is that of its bytes, and they differ.
pub fn told_digests_differ()
    ensures { ToldDigestsDiffer }
{}
