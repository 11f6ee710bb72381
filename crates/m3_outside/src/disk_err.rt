use crate::failed::Failed;
use m3_model::Memory;
use std::alloc::{AllocError, AllocFailed};
use thiserror::Error;

/// Why a disk refused a call that may take memory.
#[derive(Clone, Copy, Debug, PartialEq, Eq, Error)]
pub enum DiskErr {
    /// The disk failed. Its count of faults rose in that call.
    #[error("the disk failed")]
    Failed,
    /// Want of memory.
    #[error("out of memory")]
    Memory,
}

impl From<Failed> for DiskErr {
    ghost use Rattle.std.specs.Prelude.{◌≡◌};
    ghost use Rattle.m3_outside.specs.declared.disk_err.DiskErr.TheVariants.{Failed as DiskFailed};

    ghost from_gives = { λ _ e. e ≡ DiskFailed };

    fn from(_: Failed) -> DiskErr {
        DiskErr::Failed
    }
}

impl From<Memory> for DiskErr {
    ghost use Rattle.std.specs.Prelude.{◌≡◌};
    ghost use Rattle.m3_outside.specs.declared.disk_err.DiskErr.TheVariants.{Memory as WantOfMemory};

    ghost from_gives = { λ _ e. e ≡ WantOfMemory };

    fn from(_: Memory) -> DiskErr {
        DiskErr::Memory
    }
}

impl From<AllocError> for DiskErr {
    ghost use Rattle.std.specs.Prelude.{◌≡◌};
    ghost use Rattle.m3_outside.specs.declared.disk_err.DiskErr.TheVariants.{Memory as WantOfMemory};

    ghost from_gives = { λ _ e. e ≡ WantOfMemory };

    fn from(_: AllocError) -> DiskErr {
        DiskErr::Memory
    }
}

impl<T: Drop> From<AllocFailed<T>> for DiskErr {
    ghost use Rattle.std.specs.Prelude.{◌≡◌};
    ghost use Rattle.m3_outside.specs.declared.disk_err.DiskErr.TheVariants.{Memory as WantOfMemory};

    ghost from_gives = { λ _ e. e ≡ WantOfMemory };

    fn from(_: AllocFailed<T>) -> DiskErr {
        DiskErr::Memory
    }
}
