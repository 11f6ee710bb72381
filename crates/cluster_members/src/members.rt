ghost use Rattle.std.specs.Prelude.{◌≡◌, ◌≤◌, ◌<◌, ◌*◌, length};
ghost use Rattle.std.specs.List.{All};
ghost use Rattle.std.proofs.Props.{props};
ghost use Rattle.m3_model.specs.declared.limits.TheConstants.{MOST_NAMESPACES, MOST_NODES, MOST_SHARDS, MOST_VERSIONS, TIME_END};

use m3_model::Placement;
use m3_outside::Disk;
use session_writes::of_replica_exchange::Slot;
use session_writes::of_session_net::Net;

/// A cluster that stands: what its calls meet, the placements that it keeps, the slots that have a replica by shard, and which of its
/// nodes are stopped.
pub struct Members<D: Disk> {
    pub net: Net<D>,
    /// The placements before the one that stands, by version, from the oldest that is kept on.
    pub past: Vec<Placement>,
    pub slots: Vec<Slot>,
    /// By the number of the node.
    pub stopped: Vec<bool>,
    ghost few: { length net.state.rules.spaces ≤ MOST_NAMESPACES },
    ghost sizes: { All (λ space. 0 < space.block) net.state.rules.spaces } by { Prim.hlevel props },
    ghost moment: { net.state.rules.now < TIME_END },
    ghost few_nodes: { length net.state.place.instances ≤ MOST_NODES },
    ghost few_slots: { length slots.items ≤ MOST_NODES * MOST_SHARDS },
    ghost few_past: { length past.items < MOST_VERSIONS },
    ghost one_each: { length stopped.items ≡ length net.state.place.instances },
}

impl<D: Disk> Drop for Members<D> {
    fn drop(self) {
        let Members {
            net: _,
            past: _,
            slots: _,
            stopped: _,
        } = self;
    }
}
