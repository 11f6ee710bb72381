//! Events of calls of clients.
ghost use Rattle.std.specs.Prelude.{◌≡◌, [], ◌∷◌, length, Bool};
ghost use Rattle.replica_calls.specs.cluster_core.Legal.{Lawful};
ghost use Rattle.replica_calls.specs.MachineCalls.{HasRoom};
ghost use Rattle.replica_calls.specs.Calls.{IsNoStep};
ghost use Rattle.session_net.specs.Runs.{Ran};

use replica_calls::Replicas;
use replica_calls::of_event_trail::EventView;
use replica_calls::of_m3_outside::Disk;

/// Adds an event that no replica makes to the list, after which it is lawful and which has room for it, and answers its
/// position. Takes no memory.
pub fn add<D: Disk>(replicas: &mut Replicas<D>, event: &EventView) -> u64
    requires lawful { (tells : Bool) → Lawful tells replicas.old.events event.now }
    requires no_step { IsNoStep event.now }
    requires room { HasRoom 1 replicas.old.events }
    ensures position { result ≡ length replicas.old.events }
    ensures ran { Ran D.state replicas.old (event.now ∷ []) replicas.new }
{
    replicas.know();
    match replicas.add(event) {
        Ok(position) => position,
        Err(_) => unreachable!(),
    }
}
