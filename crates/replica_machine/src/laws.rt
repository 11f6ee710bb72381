//! Laws over the definitions of machines.
ghost use Rattle.replica_machine.specs.MachineLaws.{NumbersAreKnown};
ghost use Rattle.replica_machine.specs.Openings.{StaysAsMade, FirstBeginIsAsMade, StaysSound, TenuresAreKnown, StepsOverFiles};
ghost use Rattle.replica_machine.specs.Rearranged.{KeptReplica, TickedReplica, KeptMachine, TickedMachine};

use m3_outside::Disk;

/// Once a machine's replica began, each stop leaves files of which tenure and fence are known: the tenure is one with which it
/// began, or one in doubt with which it was to begin; the fence is the replica's, or one in doubt that isn't below it.
pub fn numbers_are_known<D: Disk>()
    ensures { NumbersAreKnown D.state }
{}

/// Until a machine's replica began each stop leaves files that hold the points of an image of the disk over which the machine was
/// made, and no others. Their tenure and their fence aren't above those of that image and the tenures that were tried, and not
/// below those of that image.
pub fn stays_as_made<D: Disk>()
    ensures { StaysAsMade D.state }
{}

/// A replica that begins and never began has exactly the points of an image of the disk over which its machine was made, each once.
/// Its fence isn't above that image's and the tenures that were tried.
pub fn first_begin_is_as_made<D: Disk>()
    ensures { FirstBeginIsAsMade D.state }
{}

/// Each stop leaves files of which the tenure isn't above that of an image of the disk over which the machine was made and those
/// with which its replica began or was to begin.
pub fn tenures_are_known<D: Disk>()
    ensures { TenuresAreKnown D.state }
{}

/// Each stop leaves files of which each that counts is in its grammar, also an older snapshot, where it was so of each image of the
/// disk over which the machine was made.
pub fn machine_stays_sound<D: Disk>()
    ensures { StaysSound D.state }
{}

/// What a step says of a machine by the disk over which it was made, it says by any list of files.
pub fn steps_over_files<D: Disk>()
    ensures { StepsOverFiles D.state }
{}

/// Files that a replica may begin with are still such where a flush or a snapshot keeps the content that shows it.
pub fn kept_replica()
    ensures { KeptReplica }
{}

/// So they are where a tick keeps of it what hasn't expired, also one that the disk or damage stopped.
pub fn ticked_replica()
    ensures { TickedReplica }
{}

/// An open machine whose content a flush or a snapshot keeps on its disk is still its replica's, and so it is once closed.
pub fn kept_machine<D: Disk>()
    ensures { KeptMachine D.state }
{}

/// So is one of which a tick keeps what hasn't expired.
pub fn ticked_machine<D: Disk>()
    ensures { TickedMachine D.state }
{}
