use commit_log::of_m3_model::Memory;
use commit_log::of_m3_outside::{DiskErr, FileName};
use thiserror::Error;

/// Why a replica's files can't be read.
#[derive(Clone, Copy, Debug, PartialEq, Eq, Error)]
pub enum LoadErr {
    /// The disk failed. Its count of faults rose in that call.
    #[error("the disk failed")]
    Disk,
    /// Want of memory.
    #[error("out of memory")]
    Memory,
    /// The SHA-256 of the file isn't the one that is kept of it.
    #[error("the digest of {file:?} differs from the one kept")]
    Digest {
        file: FileName,
        kept: [u8; 32],
        found: [u8; 32],
    },
    /// With the byte at the offset `at`, or for want of it, no such file goes on. It is 0 where the file isn't there, and where it
    /// keeps to its digest and is damaged all the same: no offset in it is looked for then.
    #[error("{file:?} is damaged at byte {at}")]
    Form {
        file: FileName,
        at: u64,
    },
}

impl From<DiskErr> for LoadErr {
    ghost use Rattle.std.specs.Prelude.{◌≡◌};
    ghost use Rattle.shard_files.specs.Loading.{of_disk};

    ghost from_gives = { λ d e. e ≡ of_disk d };

    fn from(e: DiskErr) -> LoadErr {
        match e {
            DiskErr::Failed => LoadErr::Disk,
            DiskErr::Memory => LoadErr::Memory,
        }
    }
}

impl From<Memory> for LoadErr {
    ghost use Rattle.std.specs.Prelude.{◌≡◌};
    ghost use Rattle.shard_files.specs.declared.load_err.LoadErr.TheVariants as failures;

    ghost from_gives = { λ _ e. e ≡ failures.Memory };

    fn from(_: Memory) -> LoadErr {
        LoadErr::Memory
    }
}
