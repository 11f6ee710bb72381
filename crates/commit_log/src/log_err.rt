ghost use Rattle.std.specs.Prelude.{◌≡◌};

use log_chunks::of_m3_outside::{DiskErr, Failed};
use std::alloc::{AllocError, AllocFailed};
use thiserror::Error;

/// Why a log can't be read.
#[derive(Clone, Copy, Debug, PartialEq, Eq, Error)]
pub enum LogErr {
    /// The disk failed. Its count of faults rose in that call.
    #[error("the disk failed")]
    Disk,
    /// Want of memory.
    #[error("out of memory")]
    Memory,
    /// From the offset `at` on the bytes of the segment are none of a log.
    #[error("segment {number} is damaged at byte {at}")]
    Form { number: u64, at: u64 },
}

impl From<DiskErr> for LogErr {
    ghost use Rattle.commit_log.specs.Errors.{log_err_of};

    ghost from_gives = { λ d e. e ≡ log_err_of d };

    fn from(e: DiskErr) -> LogErr {
        match e {
            DiskErr::Failed => LogErr::Disk,
            DiskErr::Memory => LogErr::Memory,
        }
    }
}

impl From<Failed> for LogErr {
    ghost use Rattle.commit_log.specs.declared.log_err.LogErr.TheVariants as errors;

    ghost from_gives = { λ _ e. e ≡ errors.Disk };

    fn from(_: Failed) -> LogErr {
        LogErr::Disk
    }
}

impl From<AllocError> for LogErr {
    ghost use Rattle.commit_log.specs.declared.log_err.LogErr.TheVariants as errors;

    ghost from_gives = { λ _ e. e ≡ errors.Memory };

    fn from(_: AllocError) -> LogErr {
        LogErr::Memory
    }
}

impl<T: Drop> From<AllocFailed<T>> for LogErr {
    ghost use Rattle.commit_log.specs.declared.log_err.LogErr.TheVariants as errors;

    ghost from_gives = { λ _ e. e ≡ errors.Memory };

    fn from(_: AllocFailed<T>) -> LogErr {
        LogErr::Memory
    }
}
