ghost use Rattle.m3_outside.specs.DiskLaws.{SyncedIsRead, WritesOneFile, ImagesComeFromImages};
ghost use Rattle.m3_outside.specs.Laws.{ConstantMeansOk, ConstantMeansTaken};

use crate::disk::Disk;

/// A law: who finds a count of faults constant across a call knows that the call did not fail.
/// Constant means the same, and below the last value.
pub fn constant_means_ok()
    ensures { ConstantMeansOk }
{}

/// A law: who finds a count of stalls constant across a write that took nothing knows that the
/// piece was empty.
pub fn constant_means_taken()
    ensures { ConstantMeansTaken }
{}

/// A law: after a sync, what a read of the whole file gives is the only image of that file.
pub fn synced_is_read<D: Disk>()
    ensures { SyncedIsRead D.state }
{}

/// A law: a write changes no other file, neither in reads nor in an image.
pub fn writes_one_file<D: Disk>()
    ensures { WritesOneFile D.state }
{}

/// A law: images never come from nowhere. What a stop within a call or after it may leave, one before it might have
/// left, or that with the call's own change.
pub fn images_come_from_images<D: Disk>()
    ensures { ImagesComeFromImages D.state }
{}
