//! Laws over the definitions of what a replica's files hold.
ghost use Rattle.std.specs.Prelude.{List};
ghost use Rattle.commit_log.specs.m3_outside.Files.{Files};
ghost use Rattle.shard_files.specs.declared.entries.LogEntry.{LogEntry};
ghost use Rattle.shard_files.specs.FilesHold.{IsSound};
ghost use Rattle.shard_files.specs.Damage.{Damage};
ghost use Rattle.shard_files.specs.Loading.{LogTells};
ghost use Rattle.shard_files.specs.HeldLaws.{OneSpelling, EntriesAreOne, OneMore, GrownIsJoined, StopLeavesPart};
ghost use Rattle.shard_files.specs.Once.{OnceIsOne, OnceHasContent, HeldOnceIsOne};

use commit_log::of_m3_outside::Disk;

/// No two entries within their bounds have the same bytes.
pub fn one_spelling()
    ensures { OneSpelling }
{}

/// Files hold at most one list of entries.
pub fn entries_are_one()
    ensures { EntriesAreOne }
{}

/// Files of which the log is damaged hold nothing.
pub fn damaged_is_unsound()
    ensures { (damage : Damage) (files : Files) → LogTells files damage → ¬ IsSound files }
{}

/// One more entry brings its points, and its tenure and its fence where they are greater.
pub fn one_more()
    ensures { (es : List LogEntry) (e : LogEntry) → OneMore es e }
{}

/// A content that grew by part of a gain is the one from before, joined with points of the gain.
pub fn grown_is_joined()
    ensures { GrownIsJoined }
{}

/// Lists of the same points have them each once, ascending by key and then by value, in one way.
pub fn once_is_one()
    ensures { OnceIsOne }
{}

/// Points, each once, stand for the same content.
pub fn once_has_content()
    ensures { OnceHasContent }
{}

/// Files hold at most one list of points that has each once and in order, with one tenure and one fence.
pub fn held_once_is_one()
    ensures { HeldOnceIsOne }
{}

/// A stop at any moment since a call began that may bring something leaves files that hold what those of one of the images
/// held, and part of what the call brings.
pub fn stop_leaves_part<D: Disk>()
    ensures { StopLeavesPart D.state }
{}
