use crate::part_err::PartErr;
use fileset_read::of_m3_outside::{DiskErr, FileName};
use std::alloc::AllocFailed;
use thiserror::Error;

/// Why volumes aren't listed.
#[derive(Clone, Copy, Debug, Error)]
pub enum CheckErr {
    /// The disk failed. Its count of faults rose in that call.
    #[error("the disk failed")]
    Disk,
    /// Want of memory.
    #[error("out of memory")]
    Memory,
    /// The SHA-256 of the file isn't the one that is kept of it.
    #[error("the digest of {file:?} differs from the one kept")]
    Digest {
        file: FileName,
        kept: [u8; 32],
        found: [u8; 32],
    },
    /// The file isn't that of a volume. `at` is the first byte with which no such file goes on, or its end; 0 where it isn't
    /// there. Of data that keeps to its digest, and of the info of a name that no volume has, it is 0, too: no offset in them is
    /// looked for.
    #[error("{file:?} is damaged at byte {at}")]
    Form {
        file: FileName,
        at: u64,
    },
}

impl From<DiskErr> for CheckErr {
    ghost use Rattle.std.specs.Prelude.{◌≡◌};
    ghost use Rattle.fileset_check.specs.Told.{of_disk};

    ghost from_gives = { λ d e. e ≡ of_disk d };

    fn from(e: DiskErr) -> CheckErr {
        match e {
            DiskErr::Failed => CheckErr::Disk,
            DiskErr::Memory => CheckErr::Memory,
        }
    }
}

impl From<PartErr> for CheckErr {
    ghost use Rattle.std.specs.Prelude.{◌≡◌};
    ghost use Rattle.fileset_check.specs.Told.{of_part};

    ghost from_gives = { λ p e. e ≡ of_part p };

    fn from(e: PartErr) -> CheckErr {
        match e {
            PartErr::Memory => CheckErr::Memory,
            PartErr::Digest { file, kept, found } => CheckErr::Digest { file, kept, found },
            PartErr::Form { file, at } => CheckErr::Form { file, at },
        }
    }
}

impl<T: Drop> From<AllocFailed<T>> for CheckErr {
    ghost use Rattle.std.specs.Prelude.{◌≡◌};
    ghost use Rattle.fileset_check.specs.declared.check_err.CheckErr.TheVariants as failures;

    ghost from_gives = { λ _ e. e ≡ failures.Memory };

    fn from(_: AllocFailed<T>) -> CheckErr {
        CheckErr::Memory
    }
}
