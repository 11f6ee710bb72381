//! What is so of all that is told by a list of events.
ghost use Rattle.std.specs.Prelude.{Bool};
ghost use Rattle.told_by.specs.Laws.{IsKeptWhereTold, IsToldAfresh, IsToldAtFirst, IsToldLineByLine, EmptyDisksStand, IsJoinedWhereTold, AcksCountWhereTold, PlacementsStand, StandsAgain};

/// Where a legal list of events tells of a run's turns, each answered read of the run holds what was acknowledged
/// before, and nothing unwritten.
pub fn told_is_kept()
    ensures { IsKeptWhereTold }
{}

/// In a run of which a list tells that is legal as far as the disks tell, each node that turned available was joined by its
/// own bootstrap, which led to the placement and prints a majority of the former replicas, and each acknowledgement names
/// nodes that count.
pub fn told_is_joined()
    ensures joined { (tells : Bool) → IsJoinedWhereTold tells }
    ensures acks { (tells : Bool) → AcksCountWhereTold tells }
{}

/// In such a run the placement that stands before a line, by what was printed, is the last one of the list there.
pub fn printed_placements_stand()
    ensures { (tells : Bool) → PlacementsStand tells }
{}

/// A run is told line by line: it begins with nothing told, or with the state that it found, and each line's events are
/// added at the end.
pub fn told_line_by_line()
    ensures first { IsToldAtFirst }
    ensures found { IsToldAfresh }
    ensures line { IsToldLineByLine }
    ensures empty { EmptyDisksStand }
{}

/// What such a run leaves is what the next run on the same disks is to find.
pub fn told_run_leaves()
    ensures { StandsAgain }
{}
