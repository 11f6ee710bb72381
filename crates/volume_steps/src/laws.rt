//! Laws over what files hold, in the words of what is in memory.
ghost use Rattle.volume_steps.specs.Laws.{HoldWithFewer, JoinIsThere, KnownAreThere, LogStepsKeep, OneMoreKnown, ShedsMakeUp};

use shard_files::of_m3_outside::Disk;

/// Each known volume is there whole for reads, too, where each image has the known ones.
pub fn known_are_there<D: Disk>()
    ensures { KnownAreThere D.state }
{}

/// What files hold they hold with fewer points in memory, too.
pub fn hold_with_fewer()
    ensures { HoldWithFewer }
{}

/// Each point of the join of what is in memory with the points of the known volumes is in memory or one of a volume.
pub fn join_is_there()
    ensures { JoinIsThere }
{}

/// Points of which nothing is shed that is to be kept make up the same content.
pub fn sheds_make_up()
    ensures { ShedsMakeUp }
{}

/// One known volume more is that one and those from before.
pub fn one_more_known()
    ensures { OneMoreKnown }
{}

/// A segment of the log that begins leaves what files hold, and an entry that is added brings what is in it.
pub fn log_steps_keep()
    ensures { LogStepsKeep }
{}
