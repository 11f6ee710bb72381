//! What `init` leaves of the list tells of its turn.
ghost use Rattle.line_tracks.specs.acts.Inits.{FirstStands, FirstTells, LackingGroupsTell, UntakenTells};

use m3_outside::Disk;
use node_calls::of_cluster_members::Members;

/// The events of a first cluster tell of the line of the `init` that made it, and serve it; and it stands after the line.
pub fn first_tells<D: Disk>(members: &Members<D>)
    ensures tells { FirstTells D.state members.now }
    ensures stands { FirstStands D.state members.now }
{}

/// Where a disk couldn't be taken, nothing came to the list, and that tells of the line and serves it.
pub fn untaken_tells<D: Disk>(_disk: &D)
    ensures { UntakenTells D }
{}

/// Where the nodes are in fewer isolation groups than a shard has replicas, nothing came to the list either.
pub fn lacking_groups_tell()
    ensures { LackingGroupsTell }
{}
