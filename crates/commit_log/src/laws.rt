//! Laws over the definitions of logs.
ghost use Rattle.std.specs.Prelude.{◌≡◌, ℕ, ◌≤◌, List, length};
ghost use Rattle.log_chunks.specs.m3_model.declared.limits.TheConstants.{SEGMENT_BYTES};
ghost use Rattle.log_chunks.specs.m3_outside.Files.{Files};
ghost use Rattle.commit_log.specs.Segment.{ReadsChunks};
ghost use Rattle.commit_log.specs.LogLaws.{NothingBehindGate, NumbersAreThere, LogIsOne, DamagedIsNone, ReaderFindsLog, AppendGrowsLog, BeginLeavesLog, CutLeavesEnd};

use log_chunks::of_m3_outside::Disk;

/// A segment reads as at most one list of chunks.
pub fn chunks_are_one()
    ensures { (cs ds : List (List ℕ)) (bytes : List ℕ) → length bytes ≤ SEGMENT_BYTES → ReadsChunks cs bytes → ReadsChunks ds bytes → cs ≡ ds }
{}

/// Nothing from behind a gate that isn't open is ever read.
pub fn nothing_behind_gate()
    ensures { NothingBehindGate }
{}

/// The numbers by which a log is read ascend, and are those of the segments that are there.
pub fn numbers_are_there()
    ensures { (files : Files) → NumbersAreThere files }
{}

/// What is found in files is a function of the files: one list of chunks, and one next number.
pub fn log_is_one()
    ensures { LogIsOne }
{}

/// No log is found where a segment is damaged.
pub fn damaged_is_none()
    ensures { DamagedIsNone }
{}

/// A stop at any moment within an append, or after it, leaves the whole log as it was, with the one chunk more or without
/// it; once the append is acknowledged, with it. Each image of the disk before is to be one log that ends in the
/// segment of the append.
pub fn append_grows_log<D: Disk>()
    ensures { AppendGrowsLog D.state }
{}

/// A stop at any moment while a segment begins, or after it, leaves the chunks of the whole log as they were.
pub fn begin_leaves_log<D: Disk>()
    ensures { BeginLeavesLog D.state }
{}

/// What `read_all` finds on a disk with one of these images is that log.
pub fn reader_finds_log()
    ensures { ReaderFindsLog }
{}

/// A stop at any moment within a cut, or after it, leaves all chunks of the segments from its number on, and in front of
/// them the last few of the others; once the cut is done, none of the others.
pub fn cut_leaves_end<D: Disk>()
    ensures { CutLeavesEnd D.state }
{}
