use m3_outside::DiskErr;
use thiserror::Error;

/// Why the log of the meta disk can't be opened.
#[derive(Clone, Copy, Debug, PartialEq, Eq, Error)]
pub enum OpenErr {
    /// The disk failed. Its count of faults rose in that call.
    #[error("the disk failed")]
    Disk,
    /// Want of memory.
    #[error("out of memory")]
    Memory,
    /// Of a state in the segment of this number another digest is kept than is found.
    #[error("the digest of a state in segment {number} differs from the one kept")]
    Digest {
        number: u64,
        kept: [u8; 32],
        found: [u8; 32],
    },
    /// The bytes of the segment of this number are those of no log of states, by the offset `at`.
    #[error("segment {number} is damaged at byte {at}")]
    Form {
        number: u64,
        at: u64,
    },
}

impl From<DiskErr> for OpenErr {
    ghost use Rattle.std.specs.Prelude.{◌≡◌};
    ghost use Rattle.placement_log.specs.Damage.{of_disk};

    ghost from_gives = { λ d e. e ≡ of_disk d };

    fn from(e: DiskErr) -> OpenErr {
        match e {
            DiskErr::Failed => OpenErr::Disk,
            DiskErr::Memory => OpenErr::Memory,
        }
    }
}
