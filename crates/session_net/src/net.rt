ghost use Rattle.std.specs.Prelude.{◌<◌, ◌^◌, length};
ghost use Rattle.std.specs.List.{All};
ghost use Rattle.std.proofs.Props.{props};
ghost use Rattle.replica_calls.specs.wire_bytes.Entries.{IsBounded};

use m3_model::MetaState;
use net_plan::{Bag, Fates};
use replica_calls::Replicas;
use replica_calls::of_m3_outside::Disk;

/// What calls of clients meet: the rules and the placement that they go by, the replicas that they reach with the list of
/// the run's events, what becomes of their messages, and the late ones among these.
pub struct Net<D: Disk> {
    pub state: MetaState,
    pub replicas: Replicas<D>,
    pub fates: Fates,
    pub bag: Bag,
    ghost some_shards: { 0 < length state.place.shards },
    ghost few_shards: { length state.place.shards < 2 ^ 32 },
    ghost bounded_late: { All (λ one. IsBounded one.point) bag } by { Prim.hlevel props },
}

impl<D: Disk> Drop for Net<D> {
    fn drop(self) {
        let Net {
            state: _,
            replicas: _,
            fates: _,
            bag: _,
        } = self;
    }
}
