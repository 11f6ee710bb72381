/// The slot of one replica: a node's part of one shard.
#[derive(Clone, Copy, PartialEq, Eq, PartialOrd, Ord)]
pub struct Slot {
    pub shard: u32,
    /// The position of the node among the instances.
    pub node: u8,
}
