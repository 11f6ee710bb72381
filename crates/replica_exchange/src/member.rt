use replica_machine::Machine;
use replica_machine::of_m3_outside::Disk;
use std::snapshot::Snapshot;

/// The replica at a slot.
#[derive(Drop)]
pub struct Member<D: Disk> {
    pub machine: Machine<D>,
    /// The disk over which the machine was made, as it stood then: for contracts alone, without bytes.
    pub first: Snapshot<D>,
}
