//! Which files stand for some runs, and which don't.
ghost use Rattle.life_laws.specs.Broken.{AckedPointsAreHeld, HighNumbersAreRefused, IdleRunsLeaveAll, OtherStatesAreRefused, SomeFilesStand, StateIsLeft, StrangePointsAreRefused};

use m3_outside::Disk;

/// The meta disk has the state of another run than the last one, or that of another moment or placement than this run
/// left: a moment that fell, a step that is lost, or one that nobody asked for. A run that did nothing leaves what it found.
pub fn files_of_other_runs()
    ensures left { StateIsLeft }
    ensures others { OtherStatesAreRefused }
    ensures idle { IdleRunsLeaveAll }
{}

/// A replica's files have a point that no run sent.
pub fn points_of_no_run()
    ensures { StrangePointsAreRefused }
{}

/// A replica's files have a tenure above the version, or above that with which the placement gives the node the shard, so
/// that it would begin twice with one; or a fence above the version.
pub fn numbers_too_high()
    ensures { HighNumbersAreRefused }
{}

/// A point that a run acknowledged, the first or a later one, and that hasn't expired, is held by fewer than one of each
/// majority, and no higher value in its place.
pub fn points_lost()
    ensures { AckedPointsAreHeld }
{}

/// To stand is never said of nothing: of disks that stand there are files that a stop may leave.
pub fn disks_that_stand<D: Disk>(_disk: &D)
    ensures { SomeFilesStand D.state }
{}
