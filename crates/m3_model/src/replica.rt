use crate::duplicate::Duplicate;
use crate::memory::Memory;
use std::alloc::Global;

/// How a replica stands: closed until a restart, started without its data, or serving.
#[derive(Clone, Copy, Debug, PartialEq, Eq)]
pub enum Standing {
    Down,
    Boot,
    Open,
}

/// What a replica says of itself. The numbers are 0 unless it is open.
#[derive(Clone, Copy, Debug)]
pub struct Report {
    pub standing: Standing,
    /// The placement version below which it takes no write and answers no read.
    pub fence: u64,
    /// How many points stand in its buffer.
    pub buffered: u64,
    /// How many log segments stand on its disk.
    pub segments: u64,
    /// The number of its newest complete snapshot, 0 for none.
    pub snapshot: u64,
    /// How many complete fileset volumes stand on its disk.
    pub volumes: u64,
}

/// How much upkeep a replica has done since it was made, each number modulo 2^64.
#[derive(Clone, Copy, Debug)]
pub struct Work {
    pub ticks: u64,
    pub flushes: u64,
    pub snapshots: u64,
    /// The sum of all numbers that ticks, flushes, snapshots and merges answered.
    pub sum: u64,
}

/// The SHA-256 of the unexpired points of one block.
#[derive(Clone, Copy, Debug)]
pub struct BlockDigest {
    pub ns: u8,
    pub start: u64,
    pub digest: [u8; 32],
}

impl Duplicate for Standing {
    fn copy(&self, _alloc: Global) -> Result<Standing, Memory> {
        Ok(*self)
    }
}

impl Duplicate for Report {
    fn copy(&self, _alloc: Global) -> Result<Report, Memory> {
        Ok(*self)
    }
}

impl Duplicate for Work {
    fn copy(&self, _alloc: Global) -> Result<Work, Memory> {
        Ok(*self)
    }
}

impl Duplicate for BlockDigest {
    fn copy(&self, _alloc: Global) -> Result<BlockDigest, Memory> {
        Ok(*self)
    }
}
