ghost use Rattle.m3_program.specs.FaultLaws.{ConstantMeansNoFault};
ghost use Rattle.m3_program.specs.LifeLaws.{EmptyDisksStand, FirstFoundNone, FirstRunIsOne, NoRunsLeaveNothing, RunsKeep, RunsLeaveStanding, StopsLeaveStanding, UnopenedLieLess};

use m3_outside::Disk;

/// A law: over disks that tell what they hold, where the counts of faults stay as they were, no fault is a cause in the run.
pub fn constant_means_no_fault()
    ensures { ConstantMeansNoFault }
{}

/// Laws: empty disks stand for the empty life; what stands for a life does so after a stop, whatever that leaves, and
/// after a run whose cluster wasn't opened.
pub fn disks_stand<D: Disk>(_disk: &D)
    ensures empty { EmptyDisksStand D.state }
    ensures stops { StopsLeaveStanding D.state }
    ensures unopened { UnopenedLieLess D.state }
{}

/// Laws: files that stand for no runs have no state and no points; and where they stand for one, that one found no state.
pub fn files_stand_for_runs()
    ensures none { NoRunsLeaveNothing }
    ensures first { FirstFoundNone }
{}

/// A law: what is promised of every run is promised of a first one, over empty disks or over any where no state was found.
pub fn first_run_is_one<D: Disk>(_disk: &D)
    ensures { FirstRunIsOne D.state }
{}

/// Laws: after any runs, one behind the other, over disks that were empty when the first began, these stand for all of
/// them; and a further run keeps what all of them acknowledged.
pub fn lives_are_kept<D: Disk>(_disk: &D)
    ensures stand { RunsLeaveStanding D.state }
    ensures keep { RunsKeep D.state }
{}
