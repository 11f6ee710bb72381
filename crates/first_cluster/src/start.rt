use cluster_members::of_replica_exchange::Slot;

/// The slot of a replica, with the tenure with which it begins.
#[derive(Clone, Copy)]
pub struct Start {
    pub slot: Slot,
    pub tenure: u64,
}
