/// The slot of a disk: a node's and a shard's, or that of the meta disk.
#[derive(Clone, Copy, Debug, PartialEq, Eq)]
pub struct DiskSlot {
    pub node: u8,
    pub shard: u32,
}

impl DiskSlot {
    /// The slot of the meta disk, which no node and shard have.
    pub const META: DiskSlot = DiskSlot {
        node: u8::MAX,
        shard: u32::MAX,
    };
}
