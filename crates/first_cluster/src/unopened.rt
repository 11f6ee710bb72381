use cluster_members::of_replica_exchange::Slot;

/// Why no replica could be made over the disk of a slot, or none of them be begun.
#[derive(Clone, Copy)]
pub(crate) enum Unopened {
    /// The disk of the slot couldn't be taken, by a fault of the disks' own.
    Disk(Slot),
    /// Want of memory.
    Memory,
}
