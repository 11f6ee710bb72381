use shard_files::of_m3_model::Memory;
use shard_files::of_wire_bytes::WireErr;
use std::alloc::AllocFailed;
use thiserror::Error;

/// Why bytes aren't read as series.
#[derive(Clone, Copy, Debug, Error)]
pub enum RowErr {
    /// Want of memory.
    #[error("out of memory")]
    Memory,
    /// They are none.
    #[error("the bytes are no series")]
    Form,
}

impl From<Memory> for RowErr {
    ghost use Rattle.std.specs.Prelude.{◌≡◌};
    ghost use Rattle.fileset_read.specs.declared.row_err.RowErr.TheVariants as errors;

    ghost from_gives = { λ _ e. e ≡ errors.Memory };

    fn from(_: Memory) -> RowErr {
        RowErr::Memory
    }
}

impl<T: Drop> From<AllocFailed<T>> for RowErr {
    ghost use Rattle.std.specs.Prelude.{◌≡◌};
    ghost use Rattle.fileset_read.specs.declared.row_err.RowErr.TheVariants as errors;

    ghost from_gives = { λ _ e. e ≡ errors.Memory };

    fn from(_: AllocFailed<T>) -> RowErr {
        RowErr::Memory
    }
}

impl From<WireErr> for RowErr {
    ghost use Rattle.std.specs.Prelude.{◌≡◌};
    ghost use Rattle.fileset_read.specs.declared.row_err.RowErr.TheVariants as errors;

    ghost from_gives = { λ _ e. e ≡ errors.Form };

    fn from(_: WireErr) -> RowErr {
        RowErr::Form
    }
}
