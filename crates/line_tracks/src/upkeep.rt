//! What lines of upkeep leave of the list tells of their turns.
ghost use Rattle.line_tracks.specs.acts.Upkeep.{StatusTells, SweptTells, UpkeepIsDue};

use m3_outside::Disk;
use node_calls::of_cluster_members::Members;

/// The events of a sweep over all replicas of the placement tell of its line, and serve it; and the cluster stands after it.
pub fn sweeps_tell<D: Disk>(members: &Members<D>)
    ensures { SweptTells D.state members.now }
{}

/// So do those of a `status`.
pub fn status_tells<D: Disk>(members: &Members<D>)
    ensures { StatusTells D.state members.now }
{}

/// Nothing is refused of these acts where a placement stands.
pub fn upkeep_is_due()
    ensures { UpkeepIsDue }
{}
