//! What stops and restarts of nodes leave of the list tells of their turns, and leaves the cluster standing.
ghost use Rattle.line_tracks.specs.acts.Keeps.{BeginsStill};
ghost use Rattle.line_tracks.specs.acts.Nodes.{RestartFailedTells, RestartWantedTells, RestartedTells, StoppedTells};

use m3_outside::Disk;
use node_calls::of_cluster_members::Members;

/// A node that was stopped leaves events that tell of the line.
pub fn stops_tell<D: Disk>(members: &Members<D>)
    ensures { StoppedTells D.state members.now }
{}

/// So does one that was restarted; and one that stays stopped, as a replica couldn't be restarted by a fault or for want of
/// memory.
pub fn restarts_tell<D: Disk>(members: &Members<D>)
    ensures restarted { RestartedTells D.state members.now }
    ensures failed { RestartFailedTells D.state members.now }
    ensures wanted { RestartWantedTells D.state members.now }
{}

/// Where a line made no placement and began only what the one that stands gives, what is known of first begins stays known.
pub fn first_begins_stay<D: Disk>(members: &Members<D>)
    ensures { BeginsStill D.state members.now }
{}
