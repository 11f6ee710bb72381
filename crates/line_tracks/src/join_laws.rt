//! What lines of bootstraps leave of the list, and of a cluster that stands.
ghost use Rattle.line_tracks.specs.joins.Serves.{BootsServe};
ghost use Rattle.line_tracks.specs.joins.Stands.{BootsStand};

use m3_outside::Disk;
use node_calls::of_cluster_members::Members;

/// A run that is told and served stays so by the line of a bootstrap, whatever it is answered: the shards that the node joined, each with the
/// former replicas that streamed whole, or none; a replica of the node that ends it; too few former replicas; as many versions as may
/// be kept; or a refusal, want of room or of memory. Where the disks tell what they hold, replicas first begin with what earlier runs
/// sent, and few events are added.
pub fn bootstraps_serve<D: Disk>(members: &Members<D>)
    ensures { BootsServe D.state members.now }
{}

/// A cluster that stands stands after such a line: with the placement in which the moves are over where some were joined, and else
/// with the one that stood.
pub fn bootstraps_stand<D: Disk>(members: &Members<D>)
    ensures { BootsStand D.state members.now }
{}
