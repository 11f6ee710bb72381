//! What replicas over disks without points begin with.
ghost use Rattle.first_cluster.specs.Bare.{FirstBeginsBare, ReturnedBare};

use cluster_members::Members;
use m3_outside::Disk;

/// Over disks that tell and have no points, each replica of a first cluster that begins has its tenure as its fence, and none is
/// refused as not owned.
pub fn first_begins_bare<D: Disk>(members: &Members<D>)
    ensures { FirstBeginsBare D.state members.now }
{}

/// Such disks that a refused `init` gave back are so still.
pub fn returned_bare<D: Disk>(_disk: &D)
    ensures { ReturnedBare D.state }
{}
