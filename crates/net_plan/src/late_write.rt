use m3_model::{Duplicate, Memory, Point};
use std::alloc::Global;

/// The message of a write to one node, held back to be delivered later.
#[derive(Drop)]
pub struct LateWrite {
    /// The client of the write's call.
    pub client: u32,
    /// The number of the call among the client's.
    pub number: u64,
    /// The position of the node among the instances.
    pub node: u8,
    pub shard: u32,
    /// The version of the placement that the write used.
    pub version: u64,
    pub point: Point,
}

impl Duplicate for LateWrite {
    fn copy(&self, alloc: Global) -> Result<LateWrite, Memory> {
        Ok(LateWrite {
            client: self.client,
            number: self.number,
            node: self.node,
            shard: self.shard,
            version: self.version,
            point: self.point.copy(alloc)?,
        })
    }
}
