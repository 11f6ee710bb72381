use fileset_check::of_fileset_read::FileErr;
use fileset_check::of_m3_outside::FileName;
use m3_model::Memory;
use thiserror::Error;

/// Why there are no rows for a new volume of a block.
#[derive(Clone, Copy, Debug, PartialEq, Eq, Error)]
pub enum BlockErr {
    /// The disk failed. Its count of faults rose in that call.
    #[error("the disk failed")]
    Disk,
    /// Want of memory.
    #[error("out of memory")]
    Memory,
    /// The file isn't that of a volume.
    #[error("{file:?} is damaged")]
    Form { file: FileName },
    /// The block has more series than a volume may have, or a series more points.
    #[error("the block is too large for a volume")]
    Large,
}

impl From<FileErr> for BlockErr {
    ghost use Rattle.std.specs.Prelude.{◌≡◌};
    ghost use Rattle.volume_points.specs.Blocks.{of_file};

    ghost from_gives = { λ f e. e ≡ of_file f };

    fn from(e: FileErr) -> BlockErr {
        match e {
            FileErr::Disk => BlockErr::Disk,
            FileErr::Memory => BlockErr::Memory,
            FileErr::Form { file } => BlockErr::Form { file },
        }
    }
}

impl From<Memory> for BlockErr {
    ghost use Rattle.std.specs.Prelude.{◌≡◌};
    ghost use Rattle.volume_points.specs.declared.block_err.BlockErr.TheVariants as errors;

    ghost from_gives = { λ _ e. e ≡ errors.Memory };

    fn from(_: Memory) -> BlockErr {
        BlockErr::Memory
    }
}
