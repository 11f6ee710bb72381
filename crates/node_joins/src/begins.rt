//! Begins of replicas.
ghost use Rattle.std.specs.Prelude.{◌≡◌, ◌≢◌, None};
ghost use Rattle.std.specs.FinMap as finite;
ghost use Rattle.session_net.specs.cluster_core.Earlier.{HasTenure};
ghost use Rattle.node_joins.specs.Opens.{IsBeginTried, begin_told};
ghost use Rattle.node_joins.specs.Unowned.{CameUnowned};

use crate::open_err::OpenErr;
use m3_model::Reason;
use session_net::Replicas;
use session_net::of_m3_outside::Disk;
use session_net::of_replica_exchange::{CallErr, Slot};

// Whether a replica that refuses its begin so is passed over.
fn passed_over(shard: u32, why: Reason) -> Result<bool, OpenErr>
    ensures { result ≡ begin_told shard why }
{
    match why {
        Reason::Down | Reason::NotOwned => Ok(false),
        why => Err(OpenErr::Refused { shard, why }),
    }
}

/// Has the replica at the slot begin the tenure, and says whether it did: one that is down, or doesn't own the tenure, is passed over.
pub(crate) fn begin<D: Disk>(
    replicas: &mut Replicas<D>,
    slot: Slot,
    tenure: u64,
) -> Result<bool, OpenErr>
    requires tenure { HasTenure replicas.old.events slot.node slot.shard tenure }
    requires there { finite.get replicas.old.members slot ≢ None }
    ensures tried { IsBeginTried D.state slot.shard slot.node tenure replicas.old replicas.new result }
    ensures unowned { CameUnowned D.state replicas.old replicas.new }
{
    if !replicas.has_room(4) {
        return Err(OpenErr::Full);
    }
    replicas.know();
    match replicas.boot(slot, tenure) {
        Ok(()) => Ok(true),
        Err(CallErr::Refused(why)) => passed_over(slot.shard, why),
        Err(CallErr::Full) => unreachable!(),
    }
}
