//! Why each answer of a run is what it is.
ghost use Rattle.std.specs.Prelude.{Bool};
ghost use Rattle.told_runs.specs.BesideSample.{BesideIsKept, BesideIsServed};
ghost use Rattle.told_runs.specs.Counted.{AreFew, AreOfRun, OfServed};
ghost use Rattle.told_runs.specs.Laws.{IsCausedWhereTold, IsGivenAlone, IsJoinedWhereTold};
ghost use Rattle.told_runs.specs.LateSample.{DeliveryIsKnown, LateIsServed};
ghost use Rattle.told_runs.specs.Sample.{ShortIsServed};

/// Where a list of events that is legal as far as the disks tell tells of a life's present run, and its lines were served in
/// order, each answer of the run is caused: by the faults of disks that couldn't be taken, and those that the steps of
/// replicas tell. Where the disks tell what they hold, they are to hold no more than earlier runs left, and more is said.
pub fn told_is_caused()
    ensures { (tells : Bool) → IsCausedWhereTold tells }
{}

/// In such a run each node that turned available was joined by its own bootstrap, which prints a majority of the former
/// replicas, by name, and all of them run.
pub fn told_is_joined()
    ensures { (tells : Bool) → IsJoinedWhereTold tells }
{}

/// In such a run a placement gives a node a shard only in a line of one turn: what bootstraps make beside other turns ends
/// moves alone.
pub fn shards_are_given_alone()
    ensures { (tells : Bool) → IsGivenAlone tells }
{}

/// The faults by which it is caused are of its lines; and of one kind, of one slot or in all no more of them are faults of
/// its steps than steps were refused so.
pub fn causes_are_counted()
    ensures of_run { (tells : Bool) → OfServed AreOfRun tells }
    ensures few { (tells : Bool) → OfServed AreFew tells }
{}

/// What that asks of a run can be met, over disks that tell and over others: by a run of one node that writes and reads.
pub fn short_is_served()
    ensures { (tells : Bool) → ShortIsServed tells }
{}

/// And by a run whose write's one message is late and is delivered by a later line, of which all is so that is asked of a
/// delivery.
pub fn late_is_served()
    ensures served { (tells : Bool) → LateIsServed tells }
    ensures known { (tells : Bool) → DeliveryIsKnown tells }
{}

/// And by a run in which two clients write and read beside a worker whose bootstrap ends the move of their shard: its list
/// is legal and tells of it, so it is kept and caused.
pub fn beside_is_served()
    ensures served { (tells : Bool) → BesideIsServed tells }
    ensures kept { BesideIsKept }
{}
