use node_calls::of_replica_exchange::Slot;

/// Why no replica could be made over the disk of a slot.
#[derive(Clone, Copy)]
pub enum Untaken {
    /// The disk of the slot couldn't be taken, by a fault of the disks' own.
    Disk(Slot),
    /// Want of memory.
    Memory,
}
