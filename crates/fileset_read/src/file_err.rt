use shard_files::of_m3_model::Memory;
use shard_files::of_m3_outside::{DiskErr, FileName};
use thiserror::Error;

/// Why a volume isn't read.
#[derive(Clone, Copy, Debug, PartialEq, Eq, Error)]
pub enum FileErr {
    /// The disk failed. Its count of faults rose in that call.
    #[error("the disk failed")]
    Disk,
    /// Want of memory.
    #[error("out of memory")]
    Memory,
    /// The file isn't that of a volume.
    #[error("{file:?} is damaged")]
    Form { file: FileName },
}

impl From<DiskErr> for FileErr {
    ghost use Rattle.std.specs.Prelude.{◌≡◌};
    ghost use Rattle.fileset_read.specs.Volumes.{of_disk};

    ghost from_gives = { λ d e. e ≡ of_disk d };

    fn from(e: DiskErr) -> FileErr {
        match e {
            DiskErr::Failed => FileErr::Disk,
            DiskErr::Memory => FileErr::Memory,
        }
    }
}
