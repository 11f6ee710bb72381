//! What lines that make a placement leave of the list, and of a cluster that stands.
ghost use Rattle.line_tracks.specs.placements.Serves.{ChangesServe};
ghost use Rattle.line_tracks.specs.placements.Stands.{ChangesStand, ComesNext};

use m3_outside::Disk;
use node_calls::of_cluster_members::Members;

/// A run that is told and served stays so by the line of an act that asks for a step, whatever it is answered: the next placement, a
/// refusal, a disk that couldn't be taken, or want of room or of memory. The count of all faults rose by as much as disks couldn't be
/// taken.
pub fn changes_serve<D: Disk>(members: &Members<D>)
    ensures { ChangesServe D.state members.now }
{}

/// A cluster that stands has what such a line needs: the placement that the turns left, as many versions as were made, and for no slot
/// without a replica a placement that had one there. After the line it stands, with the next placement where one was made.
pub fn changes_stand<D: Disk>(members: &Members<D>)
    ensures next { ComesNext members.now }
    ensures stands { ChangesStand D.state members.now }
{}
