//! Why a case isn't played to its end.
use m3_model::Memory;
use m3_outside::DiskErr;
use std::alloc::{AllocError, AllocFailed};

/// What is in the way of a case.
#[derive(Clone, Copy)]
pub enum CaseErr {
    /// Want of memory.
    Memory,
    /// The head, or a line below it, can't be read or done, for this.
    Wrong(&'static str),
}

impl From<Memory> for CaseErr {
    fn from(_: Memory) -> CaseErr {
        CaseErr::Memory
    }
}

impl From<AllocError> for CaseErr {
    fn from(_: AllocError) -> CaseErr {
        CaseErr::Memory
    }
}

impl<T: Drop> From<AllocFailed<T>> for CaseErr {
    fn from(_: AllocFailed<T>) -> CaseErr {
        CaseErr::Memory
    }
}

impl From<DiskErr> for CaseErr {
    fn from(why: DiskErr) -> CaseErr {
        match why {
            DiskErr::Failed => CaseErr::Wrong("the disk fails there"),
            DiskErr::Memory => CaseErr::Memory,
        }
    }
}
