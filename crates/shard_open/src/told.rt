//! Damage of volumes and of a snapshot, as it is told of a replica's files.
ghost use Rattle.shard_open.specs.Told.{AreApart, IsToldBy};

use snapshot_files::of_fileset_check::CheckErr;
use snapshot_files::of_shard_files::LoadErr;

/// The same of the replica's files. A disk that doesn't keep to what it told may give a check two digests that are one: then no
/// digests are told.
pub(crate) fn told(why: CheckErr) -> LoadErr
    ensures same { IsToldBy why result }
    ensures apart { AreApart result }
{
    match why {
        CheckErr::Disk => LoadErr::Disk,
        CheckErr::Memory => LoadErr::Memory,
        CheckErr::Digest { file, kept, found } => {
            if kept == found {
                return LoadErr::Form { file, at: 0 };
            }
            LoadErr::Digest { file, kept, found }
        }
        CheckErr::Form { file, at } => LoadErr::Form { file, at },
    }
}
